// The calls that put what is made of one score at an empty place.
ghost use Rattle.std.specs.Prelude.{◌≡◌, ◌<◌, [], length, IfOk};
ghost use Rattle.algebra.specs.Cuts.{taken, dropped, reversed};
ghost use Rattle.algebra.specs.Normal.{normal};
ghost use Rattle.building.specs.Changes.{changed};
ghost use Rattle.rack.specs.Places.{Ready};
ghost use Rattle.rack.specs.Shelves.{score_held};
ghost use Rattle.rack.specs.Checks.{held_check};
ghost use Rattle.rack.specs.Calls.{put};
ghost use Rattle.rack.specs.Building.{make_answer};

use crate::rack::Rack;
use algebra::limits::MOST_NODES;
use algebra::node::Node;
use building::change::Change;
use building::making::change;
use building::size::Size;
use kinds::kind::Kind;
use nodes::roomy::RoomyList;
use nodes::span::Span;
use refusals::refusal::Refusal;

impl<'a, K: Kind> Rack<'a, K> {
    // Puts the reverse of the score at a place at an empty place.
    pub fn reverse(&mut self, to: u32, from: u32) -> Result<(), Refusal>
        ensures answer { result ≡ make_answer K.Kind.model self.old to from (reversed K.Kind.model (score_held self.old from)) }
        ensures after { self.new ≡ put result self.old to (reversed K.Kind.model (score_held self.old from)) }
    {
        self.change(Change::Reverse, to, from)
    }

    // Puts the first ticks of the score at a place at an empty place.
    pub fn take(&mut self, to: u32, from: u32, ticks: u32) -> Result<(), Refusal>
        ensures answer { result ≡ make_answer K.Kind.model self.old to from (taken K.Kind.model ticks (score_held self.old from)) }
        ensures after { self.new ≡ put result self.old to (taken K.Kind.model ticks (score_held self.old from)) }
    {
        self.change(Change::Take(ticks), to, from)
    }

    // Puts what follows the first ticks of the score at a place at an empty place.
    pub fn drop(&mut self, to: u32, from: u32, ticks: u32) -> Result<(), Refusal>
        ensures answer { result ≡ make_answer K.Kind.model self.old to from (dropped K.Kind.model ticks (score_held self.old from)) }
        ensures after { self.new ≡ put result self.old to (dropped K.Kind.model ticks (score_held self.old from)) }
    {
        self.change(Change::Drop(ticks), to, from)
    }

    // Puts the normal form of the score at a place at an empty place.
    pub fn normalise(&mut self, to: u32, from: u32) -> Result<(), Refusal>
        ensures answer { result ≡ make_answer K.Kind.model self.old to from (normal K.Kind.model (score_held self.old from)) }
        ensures after { self.new ≡ put result self.old to (normal K.Kind.model (score_held self.old from)) }
    {
        self.change(Change::Normalise, to, from)
    }

    // Puts what a change makes of the score at a place at an empty place.
    fn change(&mut self, kind: Change, to: u32, from: u32) -> Result<(), Refusal>
        ensures answer { result ≡ make_answer K.Kind.model self.old to from (changed K.Kind.model kind (score_held self.old from)) }
        ensures after { self.new ≡ put result self.old to (changed K.Kind.model kind (score_held self.old from)) }
    {
        self.known(to)?;
        self.known(from)?;
        self.held(from)?;
        self.vacant(to)?;
        let _ = &self.nodes;
        let mut room = [Node::Rest(0); MOST_NODES];
        let mut nodes = RoomyList::over(&mut room);
        let size = self.change_held(kind, to, from, &mut nodes)?;
        self.put(to, nodes.as_slice(), size);
        Ok(())
    }

    // Puts what a change makes of a held score into a list that has no nodes, where it may be put at a place, and returns its size.
    fn change_held(
        &self,
        kind: Change,
        to: u32,
        from: u32,
        out: &mut RoomyList<'_, K>,
    ) -> Result<Size, Refusal>
        requires known { to < length self.now }
        requires none { out.old ≡ [] }
        ensures answer { held_check result ≡ make_answer K.Kind.model self.now to from (changed K.Kind.model kind (score_held self.now from)) }
        ensures ready { IfOk result (λ size. Ready K.Kind.model out.new size (changed K.Kind.model kind (score_held self.now from))) }
    {
        self.known(from)?;
        let held = self.held(from)?;
        self.vacant(to)?;
        let mut spans = [Span::default(); MOST_NODES];
        change(&held.score(&mut spans), kind, &mut out.list)
    }
}
