// Sequence and parallel, as names of how two scores are put together.
ghost use Rattle.std.specs.Prelude.{◌≡◌, ◌+◌, ◌^◌, ◌<◌};
ghost use Rattle.nodes.specs.Joins.{node_of, length_of};

use algebra::node::Node;

// How two scores are put together: one after the other, or side by side.
#[derive(Clone, Copy)]
pub enum Join {
    Sequence,
    Parallel,
}

impl Join {
    // The node of such a pair.
    pub fn node<K>(self) -> Node<K>
        ensures { result ≡ node_of self }
    {
        match self {
            Join::Sequence => Node::Sequence,
            Join::Parallel => Node::Parallel,
        }
    }

    // The length of such a pair, from those of its parts.
    pub fn length(self, first: u32, second: u32) -> u32
        requires { first + second < 2 ^ 32 }
        ensures { result ≡ length_of self first second }
    {
        match self {
            Join::Sequence => first + second,
            Join::Parallel => first.max(second),
        }
    }
}
