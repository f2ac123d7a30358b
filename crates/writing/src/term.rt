// The term of a score, written from its nodes.
ghost use Rattle.std.specs.Prelude.{◌≡◌, ◌+◌, ◌≤◌, ◌++◌, length};
ghost use Rattle.algebra.specs.Layout.{view, score_of};
ghost use Rattle.grammar.specs.Files.{print, field, fields};
ghost use Rattle.writing.specs.Terms.{behind, Begun, Twice, paired};

use crate::bytes::FileBytes;
use algebra::node::Node;
use algebra::numbers::Numbers;
use grammar::lines::MOST_BYTES;
use kinds::kind::Kind;

// Puts a number and a comma behind the bytes of a file.
fn put_field(number: u32, out: &mut FileBytes)
    requires { length out.old + length (field number) ≤ MOST_BYTES }
    ensures { out.new ≡ out.old ++ field number }
{
    out.push_number(number);
    out.push(b',');
}

// Puts the four numbers of a primitive behind the bytes of a file.
fn put_fields(numbers: Numbers, out: &mut FileBytes)
    requires { length out.old + length (fields numbers) ≤ MOST_BYTES }
    ensures { out.new ≡ out.old ++ fields numbers }
{
    put_field(numbers.first, out);
    put_field(numbers.second, out);
    put_field(numbers.third, out);
    out.push_number(numbers.fourth);
}

// Puts the term of the score that begins some nodes behind the bytes of a file, and returns the nodes behind it.
#[cycle(put_pair_put_term)]
pub(crate) fn put_term<'a, K: Kind>(nodes: &'a [Node<K>], out: &mut FileBytes) -> &'a [Node<K>]
    requires begun { Begun (view K.Kind.numbers_of nodes.now) }
    requires room { length out.old + length (print (score_of (view K.Kind.numbers_of nodes.now))) ≤ MOST_BYTES }
    ensures behind { view K.Kind.numbers_of result.now ≡ behind (view K.Kind.numbers_of nodes.now) }
    ensures put { out.new ≡ out.old ++ print (score_of (view K.Kind.numbers_of nodes.now)) }
{
    let others = &nodes[1..];
    match nodes[0] {
        Node::Rest(ticks) => {
            out.push(b'r');
            out.push_number(ticks);
            others
        }
        Node::Primitive(primitive) => {
            out.push(b'p');
            put_fields(primitive.numbers(), out);
            others
        }
        Node::Sequence => put_pair(others, b'+', out),
        Node::Parallel => put_pair(others, b'|', out),
    }
}

// Puts the pair of the two scores that begin some nodes, with a sign between them, and returns the nodes behind it.
#[cycle(put_pair_put_term)]
fn put_pair<'a, K: Kind>(nodes: &'a [Node<K>], sign: u8, out: &mut FileBytes) -> &'a [Node<K>]
    requires begun { Twice (view K.Kind.numbers_of nodes.now) }
    requires room { length out.old + length (paired sign (view K.Kind.numbers_of nodes.now)) ≤ MOST_BYTES }
    ensures behind { view K.Kind.numbers_of result.now ≡ behind (behind (view K.Kind.numbers_of nodes.now)) }
    ensures put { out.new ≡ out.old ++ paired sign (view K.Kind.numbers_of nodes.now) }
{
    out.push(b'(');
    let right = put_term(nodes, out);
    out.push(sign);
    let others = put_term(right, out);
    out.push(b')');
    others
}
