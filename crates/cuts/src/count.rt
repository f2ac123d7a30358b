// How many nodes and primitives come out of a cut or a reversal.
ghost use Rattle.std.specs.Prelude.{◌≡◌, ◌<◌, ◌^◌, length};
ghost use Rattle.algebra.specs.Cuts.{reversed};
ghost use Rattle.algebra.specs.Layout.{view, preorder};
ghost use Rattle.algebra.specs.Score.{Score as Term, nodes, primitives};
ghost use Rattle.cuts.specs.Padding.{uneven_pair};
ghost use Rattle.nodes.specs.Scores.{part_at};

use algebra::node::Node;
use kinds::kind::Kind;
use nodes::join::Join;
use nodes::score::{Look, Score};

// How many primitives the score has that a row is.
pub fn count_primitives<K: Kind>(row: &[Node<K>]) -> u32
    requires { length row.now < 2 ^ 32 }
    ensures { (s : Term) → view K.Kind.numbers_of row.now ≡ preorder s → result ≡ primitives s }
{
    row.iter()
        .filter(|node| matches!(node, Node::Primitive(_)))
        .count() as u32
}

// Whether the part that begins at a node is a parallel of two of different lengths.
fn is_uneven<K: Kind>(score: &Score<'_, K>, at: usize) -> bool
    requires { at < nodes score.now }
    ensures { result ≡ uneven_pair K.Kind.model (part_at score.now at) }
{
    match score.look_at(at) {
        Look::Pair(Join::Parallel, left, right) => score.length_at(left) != score.length_at(right),
        Look::Pair(Join::Sequence, _, _) | Look::Rest(_) | Look::Primitive(_) => false,
    }
}

// How many nodes the reverse of a score has: two more for each parallel of two of different lengths.
pub fn reversed_nodes<K: Kind>(score: &Score<'_, K>) -> u32
    ensures { result ≡ nodes (reversed K.Kind.model score.now) }
{
    let count = score.count();
    let uneven = (0..count).filter(|at| is_uneven(score, *at)).count();
    (count + 2 * uneven) as u32
}
