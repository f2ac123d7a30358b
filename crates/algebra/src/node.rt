// The nodes of a score.
ghost use Rattle.std.specs.Prelude.{◌≡◌};
ghost use Rattle.algebra.specs.declared.node.Node.TheVariants.{Rest};

// What stands at one node of a score. After a pair come the nodes of its left part, and then those of its right.
#[derive(Clone, Copy)]
pub enum Node<P> {
    Rest(u32),
    Primitive(P),
    Sequence,
    Parallel,
}

// A rest of 0 ticks.
impl<P> Default for Node<P> {
    ghost is_default = { λ n. n ≡ Rest 0 };

    fn default() -> Node<P> {
        Node::Rest(0)
    }
}
