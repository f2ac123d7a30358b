// Scores that stand in rows of nodes, with the spans of their parts.
ghost use Rattle.std.specs.Prelude.{◌≡◌, ◌+◌, ◌<◌, ◌≤◌, length};
ghost use Rattle.algebra.specs.Layout.{view, preorder, score_of};
ghost use Rattle.algebra.specs.Score.{nodes, score_length};
ghost use Rattle.nodes.specs.Scores.{part_at, Shows, ShowsAt};
ghost use Rattle.nodes.specs.Standing.{Stands, Limited};

use crate::join::Join;
use crate::rows::some_of;
use crate::sight;
use crate::span::Span;
use crate::spans::fill_spans;
use algebra::node::Node;
use kinds::kind::Kind;
use std::marker::Model;

// A score within `Limited`, which is wider than the limits of a place, or a part of one.
#[derive(Clone, Drop)]
pub struct Score<'a, K: Kind> {
    pub(crate) nodes: &'a [Node<K>],
    // how many nodes the score that begins at each node has, and its length
    pub(crate) spans: &'a [Span],
}

impl<'a, K: Kind> Model for Score<'a, K> {
    ghost use Rattle.algebra.specs.Score.{Score as Term};
    ghost use Rattle.nodes.specs.Codes.{score_code};

    ghost Value = { Term };

    ghost coded = { score_code };

    ghost use Rattle.nodes.specs.Standing.{standing_score, Standing};

    ghost view = { λ s. standing_score K.Kind.numbers_of s.nodes.now };

    ghost invariant = { λ s. Standing K.Kind.model K.Kind.numbers_of s.nodes.now s.spans.now };
}

// What a score is: a rest, a primitive, or two parts joined, which are scores or the nodes where they begin.
#[derive(Clone, Copy, Drop)]
pub enum Look<K, P> {
    Rest(u32),
    Primitive(K),
    Pair(Join, P, P),
}

impl<'a, K: Kind> Score<'a, K> {
    // The score that a row is, with the spans of its parts in a table that the caller lends.
    pub fn of(nodes: &'a [Node<K>], spans: &'a mut [Span]) -> Score<'a, K>
        requires stands { Stands K.Kind.model K.Kind.numbers_of nodes.now }
        requires room { length nodes.now ≤ length spans.old }
        ensures { result ≡ score_of (view K.Kind.numbers_of nodes.now) }
    {
        fill_spans(nodes, spans);
        Score {
            nodes,
            spans: &spans[..nodes.len()],
        }
    }

    // The length in ticks.
    pub fn length(&self) -> u32
        ensures length { result ≡ score_length K.Kind.model self.now }
        ensures limited { Limited K.Kind.model self.now }
    {
        self.spans[0].length
    }

    // How many nodes there are.
    pub fn count(&self) -> usize
        ensures nodes { result ≡ nodes self.now }
        ensures small { result ≤ 1023 }
    {
        self.nodes.len()
    }

    // The nodes.
    pub fn nodes(&self) -> &'a [Node<K>]
        ensures nodes { view K.Kind.numbers_of result.now ≡ preorder self.now }
        ensures limited { Limited K.Kind.model self.now }
    {
        let nodes = self.nodes;
        nodes
    }

    // What the score is.
    pub fn look(&self) -> Look<K, Score<'a, K>>
        ensures is { Shows K.Kind.numbers_of self.now result }
        ensures limited { Limited K.Kind.model self.now }
    {
        match sight::look(self.nodes, self.spans, 0) {
            Look::Rest(ticks) => Look::Rest(ticks),
            Look::Primitive(primitive) => Look::Primitive(primitive),
            Look::Pair(join, first, second) => {
                let left = self.part(first);
                let right = self.part(second);
                Look::Pair(join, left, right)
            }
        }
    }

    // The score that begins at a node.
    pub fn part(&self, at: usize) -> Score<'a, K>
        requires { at < nodes self.now }
        ensures part { result ≡ part_at self.now at }
        ensures inside { at + nodes result ≤ nodes self.now }
    {
        let spans = self.spans;
        let count = spans[at].nodes as usize;
        Score {
            nodes: some_of(self.nodes, at, count),
            spans: some_of(spans, at, count),
        }
    }

    // What the part is that begins at a node; of a pair, the nodes where its parts begin. A recursion goes over one score by these.
    pub fn look_at(&self, at: usize) -> Look<K, usize>
        requires { at < nodes self.now }
        ensures { ShowsAt K.Kind.numbers_of self.now at result }
    {
        sight::look(self.nodes, self.spans, at)
    }

    // The length of the part that begins at a node.
    pub fn length_at(&self, at: usize) -> u32
        requires { at < nodes self.now }
        ensures { result ≡ score_length K.Kind.model (part_at self.now at) }
    {
        let spans = self.spans;
        spans[at].length
    }

    // The nodes of the part that begins at a node.
    pub fn nodes_at(&self, at: usize) -> &'a [Node<K>]
        requires { at < nodes self.now }
        ensures { view K.Kind.numbers_of result.now ≡ preorder (part_at self.now at) }
    {
        some_of(self.nodes, at, self.spans[at].nodes as usize)
    }
}
