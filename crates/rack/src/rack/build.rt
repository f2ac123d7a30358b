// The calls that put a new score at an empty place.
ghost use Rattle.std.specs.Prelude.{◌≡◌, ◌+◌, ◌*◌, ◌<◌, ◌≤◌, ◌∷◌, ◌++◌, length, take, drop, Some, slice_set, IfOk};
ghost use Rattle.algebra.specs.Score.{Score.rest};
ghost use Rattle.algebra.specs.Layout.{seen, view};
ghost use Rattle.nodes.specs.Joins.{joined};
ghost use Rattle.nodes.specs.Rows.{overlaid};
ghost use Rattle.nodes.specs.Standing.{standing_score};
ghost use Rattle.building.specs.Sizes.{sized};
ghost use Rattle.rack.specs.Places.{Apart};
ghost use Rattle.rack.specs.Checks.{held_check};
ghost use Rattle.rack.specs.Calls.{put};
ghost use Rattle.rack.specs.Building.{rest_answer, joined_at, join_answer, JoinReady};

use crate::rack::Rack;
use crate::rack::places::Held;
use algebra::limits::{LONGEST, MOST_NODES};
use algebra::node::Node;
use building::size::{Size, limits};
use kinds::kind::Kind;
use nodes::join::Join;
use refusals::refusal::Refusal;

impl<'a, K: Kind> Rack<'a, K> {
    // Puts a rest of some ticks at an empty place.
    pub fn rest(&mut self, to: u32, ticks: u32) -> Result<(), Refusal>
        ensures answer { result ≡ rest_answer self.old to ticks }
        ensures after { self.new ≡ put result self.old to (rest ticks) }
    {
        if ticks > LONGEST {
            return Err(Refusal::BadValue(ticks));
        }
        self.known(to)?;
        self.vacant(to)?;
        self.put_rest(to, ticks);
        Ok(())
    }

    // The same for a place and ticks that are known to go.
    fn put_rest(&mut self, to: u32, ticks: u32)
        requires known { to < length self.old }
        requires short { ticks ≤ 16777215 }
        ensures { self.new ≡ slice_set self.old to (Some (rest ticks)) }
    {
        let _ = &self.nodes;
        let size = Size {
            nodes: 1,
            primitives: 0,
            length: ticks,
        };
        self.put(to, &[Node::Rest(ticks)], size);
    }

    // Puts the scores at two places, one after the other, at an empty place.
    pub fn join_sequence(&mut self, to: u32, first: u32, second: u32) -> Result<(), Refusal>
        ensures answer { result ≡ join_answer K.Kind.model Join.Sequence self.old to first second }
        ensures after { self.new ≡ put result self.old to (joined_at Join.Sequence self.old first second) }
    {
        self.join(Join::Sequence, to, first, second)
    }

    // Puts the scores at two places, side by side, at an empty place.
    pub fn join_parallel(&mut self, to: u32, first: u32, second: u32) -> Result<(), Refusal>
        ensures answer { result ≡ join_answer K.Kind.model Join.Parallel self.old to first second }
        ensures after { self.new ≡ put result self.old to (joined_at Join.Parallel self.old first second) }
    {
        self.join(Join::Parallel, to, first, second)
    }

    // Puts the scores at two places together at an empty place.
    fn join(&mut self, join: Join, to: u32, first: u32, second: u32) -> Result<(), Refusal>
        ensures answer { result ≡ join_answer K.Kind.model join self.old to first second }
        ensures after { self.new ≡ put result self.old to (joined_at join self.old first second) }
    {
        self.known(to)?;
        let joined = self.joined(join, to, first, second)?;
        write_pair(
            self.nodes,
            to as usize * MOST_NODES,
            join.node(),
            Run::of(first, joined.left),
            Run::of(second, joined.right),
        );
        self.places[to as usize] = Some(joined.size.into());
        Ok(())
    }

    // What two held scores are put together, where that may be put at a place.
    fn joined(&self, join: Join, to: u32, first: u32, second: u32) -> Result<Joined, Refusal>
        requires { to < length self.now }
        ensures answer { held_check result ≡ join_answer K.Kind.model join self.now to first second }
        ensures ready { IfOk result (λ j. JoinReady K.Kind.model self.now join to first second j.left j.right j.size) }
    {
        self.known(first)?;
        self.known(second)?;
        let left = self.held(first)?;
        let right = self.held(second)?;
        self.vacant(to)?;
        Ok(Joined {
            left: left.noted.nodes,
            right: right.noted.nodes,
            size: joined_size(join, &left, &right)?,
        })
    }
}

// How many nodes two scores have, and what size they are put together.
#[derive(Clone, Copy)]
struct Joined {
    left: u32,
    right: u32,
    size: Size,
}

// The size of two held scores put together, where it is within the limits.
fn joined_size<K: Kind>(
    join: Join,
    left: &Held<'_, K>,
    right: &Held<'_, K>,
) -> Result<Size, Refusal>
    ensures { result ≡ sized K.Kind.model (joined join (standing_score K.Kind.numbers_of left.now.nodes.now) (standing_score K.Kind.numbers_of right.now.nodes.now)) }
{
    let size = Size {
        nodes: 1 + left.noted.nodes + right.noted.nodes,
        primitives: left.noted.primitives + right.noted.primitives,
        length: join.length(left.length(), right.length()),
    };
    limits(size)?;
    Ok(size)
}

// Some nodes of a row: where they begin, and how many they are.
#[derive(Clone, Copy)]
struct Run {
    at: usize,
    count: usize,
}

impl Run {
    // The first nodes of a place's segment.
    fn of(place: u32, nodes: u32) -> Run
        ensures at { result.at ≡ place * 1023 }
        ensures count { result.count ≡ nodes }
    {
        Run {
            at: place as usize * MOST_NODES,
            count: nodes as usize,
        }
    }
}

// Writes the node of a pair and copies of the nodes of its parts, which lie elsewhere in the row.
fn write_pair<K: Kind>(nodes: &mut [Node<K>], to: usize, node: Node<K>, left: Run, right: Run)
    requires room { to + 1 + left.count + right.count ≤ length nodes.old }
    requires left_within { left.at + left.count ≤ length nodes.old }
    requires right_within { right.at + right.count ≤ length nodes.old }
    requires left_apart { Apart left.at left.count to (1 + left.count + right.count) }
    requires right_apart { Apart right.at right.count to (1 + left.count + right.count) }
    ensures { view K.Kind.numbers_of nodes.new ≡ overlaid (view K.Kind.numbers_of nodes.old) to (seen K.Kind.numbers_of node ∷ (take left.count (drop left.at (view K.Kind.numbers_of nodes.old)) ++ take right.count (drop right.at (view K.Kind.numbers_of nodes.old)))) }
{
    nodes[to] = node;
    nodes.copy_within(left.at..left.at + left.count, to + 1);
    nodes.copy_within(right.at..right.at + right.count, to + 1 + left.count);
}
