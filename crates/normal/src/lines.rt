// The lines of placed primitives.
ghost use Rattle.std.specs.Prelude.{◌≡◌, ◌+◌, ◌≤◌, ◌++◌, length as length_of};
ghost use Rattle.algebra.specs.Kind.{LegalNumbers};
ghost use Rattle.algebra.specs.Layout.{preorder};
ghost use Rattle.algebra.specs.Score.{nodes};
ghost use Rattle.normal.specs.Placing.{placed_of, all_placed, AllLegal};
ghost use Rattle.normal.specs.Writing.{line_of, lines_of};

use crate::placed::PlacedNumbers;
use algebra::node::Node;
use algebra::numbers::Numbers;
use kinds::kind::Kind;
use nodes::list::NodeList;

// The primitive with just these numbers, which are legal.
pub fn primitive_of<K: Kind>(numbers: Numbers) -> K
    requires { LegalNumbers K.Kind.model numbers }
    ensures { K.Kind.numbers_of result ≡ numbers }
{
    K::make(numbers).unwrap()
}

// Puts the line of a placed primitive in a score of a length behind the nodes of a list.
pub fn write_line<K: Kind>(length: u32, item: PlacedNumbers, out: &mut NodeList<'_, K>)
    requires legal { LegalNumbers K.Kind.model item.numbers }
    requires room { length_of out.old.items + 5 ≤ out.old.room }
    ensures items { out.new.items ≡ out.old.items ++ preorder (line_of K.Kind.model length (placed_of item)) }
    ensures room { out.new.room ≡ out.old.room }
{
    let primitive = primitive_of::<K>(item.numbers);
    let left = length.saturating_sub(item.onset);
    let after = left.saturating_sub(primitive.length());
    out.push(Node::Sequence);
    out.push(Node::Rest(item.onset));
    out.push(Node::Sequence);
    out.push(Node::Primitive(primitive));
    out.push(Node::Rest(after));
}

// Puts the lines of placed primitives in a score of a length, together in their order, behind the nodes of a list.
pub fn write_lines<K: Kind>(length: u32, placed: &[PlacedNumbers], out: &mut NodeList<'_, K>)
    requires legal { AllLegal K.Kind.model (all_placed placed.now) }
    requires room { length_of out.old.items + nodes (lines_of K.Kind.model length (all_placed placed.now)) ≤ out.old.room }
    ensures items { out.new.items ≡ out.old.items ++ preorder (lines_of K.Kind.model length (all_placed placed.now)) }
    ensures room { out.new.room ≡ out.old.room }
{
    match placed.split_last() {
        None => out.push(Node::Rest(length)),
        Some((last, rest)) => {
            for item in rest {
                out.push(Node::Parallel);
                write_line(length, *item, out);
            }
            write_line(length, *last, out);
        }
    }
}
