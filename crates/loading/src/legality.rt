// Nodes of a kind, made from the numbers in a file.
ghost use Rattle.std.specs.Prelude.{◌≡◌, true, None, MatchResult};
ghost use Rattle.algebra.specs.Layout.{seen};
ghost use Rattle.grammar.specs.Loads.{legal_node, illegal};
ghost use Rattle.refusals.specs.declared.refusal.Refusal.TheVariants.{IllegalNumbers};
ghost use Rattle.loading.specs.Made.{seen_node, made_node};
ghost use Rattle.loading.specs.Offsets.{RefusedAt};

use algebra::node::Node;
use algebra::numbers::Numbers;
use grammar::item::Item;
use kinds::kind::Kind;
use refusals::refusal::Refusal;

// The node of the kind with just these numbers; none where the kind refuses them.
pub fn node_of<K: Kind>(node: Node<Numbers>) -> Option<Node<K>>
    ensures { seen_node K.Kind.numbers_of result ≡ made_node K.Kind.model node }
{
    match node {
        Node::Rest(ticks) => Some(Node::Rest(ticks)),
        Node::Primitive(numbers) => Some(Node::Primitive(K::make(numbers)?)),
        Node::Sequence => Some(Node::Sequence),
        Node::Parallel => Some(Node::Parallel),
    }
}

// The node of the kind with just these numbers, which the kind takes.
pub fn legal_node_of<K: Kind>(node: Node<Numbers>) -> Node<K>
    requires { legal_node K.Kind.model node ≡ true }
    ensures { seen K.Kind.numbers_of result ≡ node }
{
    node_of::<K>(node).unwrap()
}

// Where the first primitive stands whose numbers the kind refuses.
fn first_illegal<K: Kind>(items: &[Item]) -> Option<u32>
    ensures { result ≡ illegal K.Kind.model items.now }
{
    items
        .iter()
        .find(|item| node_of::<K>(item.node).is_none())
        .map(|item| item.offset)
}

// Refuses the first primitive whose numbers the kind refuses.
pub fn check_legal<K: Kind>(items: &[Item]) -> Result<(), Refusal>
    ensures { MatchResult result (λ _. illegal K.Kind.model items.now ≡ None) (RefusedAt (illegal K.Kind.model items.now) IllegalNumbers) }
{
    match first_illegal::<K>(items) {
        Some(offset) => Err(Refusal::IllegalNumbers(offset)),
        None => Ok(()),
    }
}
