// Drawing a score.
ghost use Rattle.std.specs.Prelude.{◌≡◌, MatchResult};
ghost use Rattle.drawing.specs.Drawn.{drawn_score};
ghost use Rattle.rack.specs.Shelves.{score_held};
ghost use Rattle.rack.specs.Calls.{clear_answer};
ghost use Rattle.rack.specs.Drawing.{drawn_over};

use crate::rack::Rack;
use algebra::limits::MOST_NODES;
use drawing::draw::draw_score;
use kinds::kind::Kind;
use nodes::span::Span;
use refusals::refusal::Refusal;
use render::renderer::Renderer;

impl<'a, K: Kind> Rack<'a, K> {
    // Starts a renderer with the length of the score at a place, and enters each of its primitives once.
    pub fn draw<R: Renderer>(&self, place: u32, renderer: &mut R) -> Result<(), Refusal>
        ensures answer { result ≡ clear_answer self.now place }
        ensures settings { R.Renderer.settings_of renderer.new ≡ R.Renderer.settings_of renderer.old }
        ensures picture { R.Renderer.picture_of renderer.new ≡ drawn_over result (drawn_score (R.Renderer.blank (R.Renderer.settings_of renderer.old)) (R.Renderer.entered (R.Renderer.settings_of renderer.old)) K.Kind.model (score_held self.now place)) (R.Renderer.picture_of renderer.old) }
        ensures spared { MatchResult result (λ _. R.Renderer.spares renderer.old renderer.new) (λ _. renderer.new ≡ renderer.old) }
    {
        self.known(place)?;
        let held = self.held(place)?;
        let mut spans = [Span::default(); MOST_NODES];
        draw_score(&held.score(&mut spans), renderer);
        Ok(())
    }
}
