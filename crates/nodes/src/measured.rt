// Held scores, measured.
ghost use Rattle.std.specs.Prelude.{◌≡◌};
ghost use Rattle.algebra.specs.Layout.{view, score_of};
ghost use Rattle.nodes.specs.Standing.{Stands, Limited};

use crate::score::Score;
use crate::span::Span;
use crate::spans::fill_spans;
use algebra::limits::MOST_NODES;
use algebra::node::Node;
use kinds::kind::Kind;
use std::marker::Model;

// A row of nodes that is one score within `Limited`, which is wider than the limits of a place, with the spans of its parts.
#[derive(Drop)]
pub struct Measured<'a, K: Kind> {
    nodes: &'a [Node<K>],
    spans: [Span; 1023],
}

impl<'a, K: Kind> Model for Measured<'a, K> {
    ghost use Rattle.algebra.specs.Score.{Score as Term};
    ghost use Rattle.nodes.specs.Codes.{score_code};

    ghost Value = { Term };

    ghost coded = { score_code };

    ghost use Rattle.nodes.specs.Standing.{standing_score, Tabled};

    ghost view = { λ m. standing_score K.Kind.numbers_of m.nodes.now };

    ghost invariant = { λ m. Tabled K.Kind.model K.Kind.numbers_of m.nodes.now m.spans };
}

impl<'a, K: Kind> Measured<'a, K> {
    // The score that a row is.
    pub fn of(nodes: &'a [Node<K>]) -> Measured<'a, K>
        requires { Stands K.Kind.model K.Kind.numbers_of nodes.now }
        ensures { result ≡ score_of (view K.Kind.numbers_of nodes.now) }
    {
        let mut spans = [Span::default(); MOST_NODES];
        fill_spans(nodes, &mut spans);
        Measured { nodes, spans }
    }

    // The score.
    pub fn score(&self) -> Score<'_, K>
        ensures same { result ≡ self.now }
        ensures limited { Limited K.Kind.model self.now }
    {
        Score {
            nodes: self.nodes,
            spans: &self.spans[..self.nodes.len()],
        }
    }
}
