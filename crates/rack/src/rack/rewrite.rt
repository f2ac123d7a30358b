// The call that rewrites a score in its place.
ghost use Rattle.std.specs.Prelude.{◌≡◌, ◌<◌, [], ◌++◌, length, IfOk, Some};
ghost use Rattle.refusals.specs.Checks.{all};
ghost use Rattle.building.specs.Steps.{step_named};
ghost use Rattle.building.specs.Rows.{score_in};
ghost use Rattle.rack.specs.Places.{Ready};
ghost use Rattle.rack.specs.Checks.{held_check};
ghost use Rattle.rack.specs.Calls.{put};
ghost use Rattle.rack.specs.Steps.{stepped_at, rewritable, steppable, rewrite_answer};

use crate::rack::Rack;
use algebra::limits::MOST_NODES;
use algebra::node::Node;
use building::rewrite::rewrite;
use building::size::Size;
use building::step::step_named;
use kinds::kind::Kind;
use nodes::roomy::RoomyList;
use nodes::span::Span;
use refusals::refusal::Refusal;
use rewriting::step::Step;

impl<'a, K: Kind> Rack<'a, K> {
    // Does one step at a node of the score at a place: a rule from 1 to 9, forth (0) or back (1). The split is 0 except for rule 7, back.
    pub fn rewrite(
        &mut self,
        place: u32,
        node: u32,
        rule: u32,
        way: u32,
        split: u32,
    ) -> Result<(), Refusal>
        ensures answer { result ≡ rewrite_answer K.Kind.model self.old place node rule way split }
        ensures after { self.new ≡ put result self.old place (score_in (stepped_at K.Kind.model self.old place node (step_named rule way split))) }
    {
        let step = step_named(rule, way, split)?;
        self.known(place)?;
        let held = self.held(place)?;
        if node >= held.noted.nodes {
            return Err(Refusal::NoSuchNode(held.noted.nodes));
        }
        let _ = &self.nodes;
        let mut room = [Node::Rest(0); MOST_NODES];
        let mut nodes = RoomyList::over(&mut room);
        let size = self.rewrite_held(place, node, step, &mut nodes)?;
        self.put(place, nodes.as_slice(), size);
        Ok(())
    }

    // Puts what a step at a node makes of a held score into a list that has no nodes, where it may be put back, and returns its size.
    fn rewrite_held(
        &self,
        place: u32,
        node: u32,
        step: Step,
        out: &mut RoomyList<'_, K>,
    ) -> Result<Size, Refusal>
        requires known { place < length self.now }
        requires none { out.old ≡ [] }
        ensures answer { held_check result ≡ all (rewritable self.now place node ++ steppable K.Kind.model node (stepped_at K.Kind.model self.now place node (Some step))) }
        ensures ready { IfOk result (λ size. Ready K.Kind.model out.new size (score_in (stepped_at K.Kind.model self.now place node (Some step)))) }
    {
        let held = self.held(place)?;
        if node >= held.noted.nodes {
            return Err(Refusal::NoSuchNode(held.noted.nodes));
        }
        let mut spans = [Span::default(); MOST_NODES];
        rewrite(&held.score(&mut spans), node, step, &mut out.list)
    }
}
