// The places of a rack: what they hold, and what is put there.
ghost use Rattle.std.specs.Prelude.{◌≡◌, ◌<◌, ◌≤◌, length, slice_set, Some, None, OnOk, IfOk};
ghost use Rattle.algebra.specs.Score.{Score as Term, score_length};
ghost use Rattle.algebra.specs.Layout.{view, preorder};
ghost use Rattle.algebra.specs.Limits.{Fits};
ghost use Rattle.nodes.specs.Held.{Whole};
ghost use Rattle.nodes.specs.Standing.{standing_score};
ghost use Rattle.rack.specs.Places.{place_at, Counts, Ready};
ghost use Rattle.rack.specs.Shelves.{at};
ghost use Rattle.rack.specs.Checks.{known, holding, vacant, held_check};

use crate::place::Place;
use crate::rack::Rack;
use algebra::limits::MOST_NODES;
use algebra::node::Node;
use building::size::Size;
use kinds::kind::Kind;
use nodes::measure::length_of;
use nodes::rows::{some_of, write_over};
use nodes::score::Score;
use nodes::span::Span;
use refusals::refusal::Refusal;

// The nodes of a score that a place holds, with what is noted of it.
#[derive(Drop)]
pub(crate) struct Held<'a, K: Kind> {
    pub nodes: &'a [Node<K>],
    pub noted: Place,
    ghost whole: { Whole (view K.Kind.numbers_of nodes.now) },
    ghost few: { length nodes.now ≤ 1023 },
    ghost counts: { Counts noted (standing_score K.Kind.numbers_of nodes.now) },
    ghost fits: { Fits K.Kind.model (standing_score K.Kind.numbers_of nodes.now) },
}

impl<'a, K: Kind> Held<'a, K> {
    // The score, measured in a lent table. This goes over all its nodes, so it comes behind the checks that need none of them.
    pub(crate) fn score<'b>(&'b self, spans: &'b mut [Span]) -> Score<'b, K>
        requires { length self.now.nodes.now ≤ length spans.old }
        ensures { result ≡ standing_score K.Kind.numbers_of self.now.nodes.now }
    {
        Score::of(self.nodes, spans)
    }

    // The length of the score, where nothing else is asked of it.
    pub(crate) fn length(&self) -> u32
        ensures { result ≡ score_length K.Kind.model (standing_score K.Kind.numbers_of self.now.nodes.now) }
    {
        length_of(self.nodes)
    }
}

impl<'a, K: Kind> Rack<'a, K> {
    // How many places the rack has.
    fn number(&self) -> usize
        ensures { result ≡ length self.now }
    {
        (self.nodes.len() / MOST_NODES).min(8)
    }

    // Refuses a place that the rack has not.
    pub(crate) fn known(&self, place: u32) -> Result<(), Refusal>
        ensures answer { result ≡ known self.now place }
        ensures within { OnOk result (place < length self.now) }
    {
        if place as usize >= self.number() {
            return Err(Refusal::NoSuchPlace(place));
        }
        Ok(())
    }

    // Refuses a place that holds a score.
    pub(crate) fn vacant(&self, place: u32) -> Result<(), Refusal>
        ensures { result ≡ vacant self.now place }
    {
        match note_at(&self.places, place) {
            Some(_) => Err(Refusal::FullPlace(place)),
            None => Ok(()),
        }
    }

    // The score at a place; refuses a place that holds none.
    pub(crate) fn held(&self, place: u32) -> Result<Held<'_, K>, Refusal>
        ensures answer { held_check result ≡ holding self.now place }
        ensures held { IfOk result (λ h. at self.now place ≡ Some (standing_score K.Kind.numbers_of h.nodes.now)) }
    {
        let Some(noted) = note_at(&self.places, place) else {
            return Err(Refusal::EmptyPlace(place));
        };
        let start = place as usize * MOST_NODES;
        let nodes = some_of(self.nodes, start, noted.nodes as usize);
        Ok(Held { nodes, noted })
    }

    // Puts a score of a size, which a place has room for, at a place of the rack.
    pub(crate) fn put(&mut self, to: u32, nodes: &[Node<K>], size: Size)
        requires known { to < length self.old }
        requires ready { (s : Term) × Ready K.Kind.model (view K.Kind.numbers_of nodes.now) size s }
        ensures { (s : Term) → view K.Kind.numbers_of nodes.now ≡ preorder s → self.new ≡ slice_set self.old to (Some s) }
    {
        write_over(self.nodes, to as usize * MOST_NODES, nodes);
        self.places[to as usize] = Some(size.into());
    }

    // Empties a place of the rack.
    pub(crate) fn empty(&mut self, place: u32)
        requires { place < length self.old }
        ensures { self.new ≡ slice_set self.old place None }
    {
        self.places[place as usize] = None;
    }
}

// What is noted of a place, if it holds a score.
fn note_at(places: &[Option<Place>], place: u32) -> Option<Place>
    ensures { result ≡ place_at places.now place }
{
    places.get(place as usize).copied().flatten()
}
