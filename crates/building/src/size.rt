// How large a score is, and how large one may be.
ghost use Rattle.std.specs.Prelude.{◌≡◌, ◌<◌, ◌≤◌, ◌^◌, length as length_of, OnOk};
ghost use Rattle.algebra.specs.Layout.{view, preorder};
ghost use Rattle.algebra.specs.Score.{Score, score_length};
ghost use Rattle.refusals.specs.Checks.{all};
ghost use Rattle.building.specs.Sizes.{size_limits, sized};

use algebra::limits::{LONGEST, MOST_NODES, MOST_PRIMITIVES};
use algebra::node::Node;
use cuts::count::count_primitives;
use kinds::kind::Kind;
use refusals::refusal::Refusal;

// How many nodes and primitives a score has, and how long it is.
#[derive(Clone, Copy)]
pub struct Size {
    pub nodes: u32,
    pub primitives: u32,
    pub length: u32,
}

// Refuses a score by how many nodes and primitives it has and how long it is.
pub fn limits(size: Size) -> Result<(), Refusal>
    ensures answer { result ≡ all (size_limits size) }
    ensures within { OnOk result ((size.nodes ≤ 1023) × (size.primitives ≤ 170) × (size.length ≤ 16777215)) }
{
    if size.nodes as usize > MOST_NODES || size.primitives as usize > MOST_PRIMITIVES {
        return Err(Refusal::TooMany(size.nodes));
    }
    if size.length > LONGEST {
        return Err(Refusal::TooLong(size.length));
    }
    Ok(())
}

// The size of the score of a length that a row is, where it is within the limits.
pub fn size_within<K: Kind>(row: &[Node<K>], length: u32) -> Result<Size, Refusal>
    requires { length_of row.now < 2 ^ 32 }
    ensures { (s : Score) → view K.Kind.numbers_of row.now ≡ preorder s → length ≡ score_length K.Kind.model s → result ≡ sized K.Kind.model s }
{
    let size = Size {
        nodes: row.len() as u32,
        primitives: count_primitives(row),
        length,
    };
    limits(size)?;
    Ok(size)
}
