// Room for the nodes and the primitives of a file.
ghost use Rattle.std.specs.Prelude.{◌≡◌, MatchResult};
ghost use Rattle.grammar.specs.Loads.{holds_primitive, excess};
ghost use Rattle.refusals.specs.declared.refusal.Refusal.TheVariants.{TooManyInFile};
ghost use Rattle.loading.specs.Counts.{primitive_items, Counted};
ghost use Rattle.loading.specs.Offsets.{RefusedAt};

use algebra::limits::{MOST_NODES, MOST_PRIMITIVES};
use algebra::node::Node;
use grammar::item::Item;
use refusals::refusal::Refusal;

// Whether an item is a primitive.
fn is_primitive(item: &Item) -> bool
    ensures { result ≡ holds_primitive item.now.node }
{
    matches!(item.node, Node::Primitive(_))
}

// How many primitives there are.
fn primitives(items: &[Item]) -> usize
    ensures { result ≡ primitive_items items.now }
{
    items.iter().filter(|item| is_primitive(item)).count()
}

// Where the first node stands for which there is no room: a node or a primitive that is one too many.
fn first_excess(items: &[Item]) -> Option<u32>
    ensures { result ≡ excess 1023 170 items.now }
{
    let primitive = items
        .iter()
        .take(MOST_NODES)
        .filter(|item| is_primitive(item))
        .map(|item| item.offset)
        .nth(MOST_PRIMITIVES);
    let node = items.iter().map(|item| item.offset).nth(MOST_NODES);
    primitive.or(node)
}

// Counts the primitives, and refuses the first node or primitive that is one too many.
pub fn count_primitives(items: &[Item]) -> Result<u32, Refusal>
    ensures { MatchResult result (Counted items.now) (RefusedAt (excess 1023 170 items.now) TooManyInFile) }
{
    let count = primitives(items);
    if items.len() <= MOST_NODES && count <= MOST_PRIMITIVES {
        return Ok(count as u32);
    }
    let offset = first_excess(items).unwrap();
    Err(Refusal::TooManyInFile(offset))
}
