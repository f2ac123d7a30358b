// A renderer that keeps the entries themselves.
ghost use Rattle.std.specs.Prelude.{◌≡◌, ℕ, Some, None};
ghost use Rattle.render.specs.Drawings.{StaysSpared};
ghost use Rattle.render.specs.Roll.{RollPicture, roll_blank, roll_entered, capacity_of, entries_of, roll_picture, row_with, roll_spares};
ghost use Rattle.render.specs.RollLaw.{roll_either_order};

use crate::entry::Entry;
use crate::front::front;
use crate::renderer::Renderer;

// A roll over a row that the caller brings. The first entries of the row are those it holds.
#[derive(Drop)]
pub struct Roll<'a> {
    row: &'a mut [Entry],
    length: u32,
    // how many entries are held; none where one too many was entered
    held: Option<usize>,
}

impl<'a> Roll<'a> {
    // A roll as started with length 0. Nothing of the row is written.
    pub fn new(row: &'a mut [Entry]) -> Roll<'a>
        ensures picture { roll_picture result ≡ roll_blank (capacity_of result) 0 }
        ensures row { result.row.now ≡ row.old }
        ensures lent { result.row.ghost_name ≡ row.entry.ghost_name }
    {
        Roll {
            row,
            length: 0,
            held: Some(0),
        }
    }

    // The length of the last start.
    pub fn length(&self) -> u32
        ensures { result ≡ (roll_picture self.now).length }
    {
        self.length
    }

    // The entries that it holds, in any order; none where it is overfull.
    pub fn entries(&self) -> Option<&[Entry]>
        ensures { elim result [ None ↦ entries_of self.now ≡ None | Some entries ↦ entries_of self.now ≡ Some entries.now ] }
    {
        match self.held {
            Some(held) => Some(front(self.row, held)),
            None => None,
        }
    }
}

impl Renderer for Roll<'_> {
    ghost Settings = { ℕ };

    ghost Picture = { RollPicture };

    ghost settings_of = { capacity_of };

    ghost picture_of = { roll_picture };

    ghost blank = { roll_blank };

    ghost entered = { roll_entered };

    ghost either_order = { roll_either_order };

    ghost spares = { roll_spares };

    fn start(&mut self, length: u32)
        ensures settings { capacity_of self.new ≡ capacity_of self.old }
        ensures picture { roll_picture self.new ≡ roll_blank (capacity_of self.old) length }
        ensures spared { roll_spares self.old self.new }
        ensures row { self.new.row.now ≡ self.old.row.now }
    {
        self.length = length;
        self.held = Some(0);
    }

    fn enter(&mut self, entry: Entry)
        ensures settings { capacity_of self.new ≡ capacity_of self.old }
        ensures picture { roll_picture self.new ≡ roll_entered (capacity_of self.old) entry (roll_picture self.old) }
        ensures spared { StaysSpared roll_spares self.old self.new }
        ensures row { self.new.row.now ≡ row_with entry self.old.row.now self.old.held }
    {
        let Some(held) = self.held else {
            return;
        };
        if held < self.row.len() {
            self.row[held] = entry;
            self.held = Some(held + 1);
        } else {
            self.held = None;
        }
    }
}
