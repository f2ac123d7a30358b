// Scores drawn on a renderer.
ghost use Rattle.std.specs.Prelude.{◌≡◌, map};
ghost use Rattle.render.specs.Drawings.{entered_all, StaysSpared};
ghost use Rattle.drawing.specs.Drawn.{entry_of, drawn_score};

use kinds::kind::Kind;
use nodes::score::Score;
use normal::lines::primitive_of;
use normal::placed::PlacedList;
use render::entry::Entry;
use render::renderer::Renderer;

// Enters placed primitives, one after the other.
fn enter_placed<K: Kind, R: Renderer>(placed: &PlacedList<K>, renderer: &mut R)
    ensures settings { R.Renderer.settings_of renderer.new ≡ R.Renderer.settings_of renderer.old }
    ensures picture { R.Renderer.picture_of renderer.new ≡ entered_all (R.Renderer.entered (R.Renderer.settings_of renderer.old)) (map (entry_of K.Kind.model) placed.now) (R.Renderer.picture_of renderer.old) }
    ensures spared { StaysSpared R.Renderer.spares renderer.old renderer.new }
{
    for item in placed.items() {
        let primitive = primitive_of::<K>(item.numbers);
        renderer.enter(Entry {
            onset: item.onset,
            length: primitive.length(),
            numbers: item.numbers,
        });
    }
}

// Starts a renderer with the length of a score, and enters each of its primitives once.
pub fn draw_score<K: Kind, R: Renderer>(score: &Score<'_, K>, renderer: &mut R)
    ensures settings { R.Renderer.settings_of renderer.new ≡ R.Renderer.settings_of renderer.old }
    ensures picture { R.Renderer.picture_of renderer.new ≡ drawn_score (R.Renderer.blank (R.Renderer.settings_of renderer.old)) (R.Renderer.entered (R.Renderer.settings_of renderer.old)) K.Kind.model score.now }
    ensures spared { R.Renderer.spares renderer.old renderer.new }
{
    let mut placed = PlacedList::new();
    let length = placed.fill(score);
    renderer.start(length);
    enter_placed(&placed, renderer);
}
