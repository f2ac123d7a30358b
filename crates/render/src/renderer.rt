// The interface of a renderer.
ghost use Rattle.std.specs.Prelude.{◌≡◌, ℕ};
ghost use Rattle.render.specs.Drawings.{InEitherOrder, InAnyOrder, entered_all, StaysSpared};
ghost use Rattle.render.specs.declared.entry.Entry.{Entry};

use crate::entry::Entry;

// Something to draw on. It means its settings and a picture.
pub trait Renderer {
    ghost Settings: { Type 0 };

    ghost Picture: { Type 0 };

    ghost settings_of: { Self → Settings };

    ghost picture_of: { Self → Picture };

    // The picture that settings and a length begin with.
    ghost blank: { Settings → ℕ → Picture };

    // The picture that settings, an entry and the old picture make.
    ghost entered: { Settings → Entry → Picture → Picture };

    // The law, which each renderer proves: two things entered in either order make the same picture.
    ghost either_order: { InEitherOrder entered };

    // From the first state to the second, what no drawing writes of the memory behind the renderer stayed as it was.
    ghost spares: { Self → Self → Type 0 };

    // Makes the picture blank, with this length.
    fn start(&mut self, length: u32)
        ensures settings { settings_of self.new ≡ settings_of self.old }
        ensures picture { picture_of self.new ≡ blank (settings_of self.old) length }
        ensures spared { spares self.old self.new };

    // Enters one thing.
    fn enter(&mut self, entry: Entry)
        ensures settings { settings_of self.new ≡ settings_of self.old }
        ensures picture { picture_of self.new ≡ entered (settings_of self.old) entry (picture_of self.old) }
        ensures spared { StaysSpared spares self.old self.new };
}

// Enters all things of a list, one after the other. What order they come in makes no difference to the picture.
pub fn enter_all<R: Renderer>(renderer: &mut R, entries: &[Entry])
    ensures settings { R.Renderer.settings_of renderer.new ≡ R.Renderer.settings_of renderer.old }
    ensures picture { R.Renderer.picture_of renderer.new ≡ entered_all (R.Renderer.entered (R.Renderer.settings_of renderer.old)) entries.now (R.Renderer.picture_of renderer.old) }
    ensures order { InAnyOrder R.Renderer.entered }
    ensures spared { StaysSpared R.Renderer.spares renderer.old renderer.new }
{
    for entry in entries {
        renderer.enter(*entry);
    }
}
