// A renderer that counts ticks: how long things sound in each stretch of time.
ghost use Rattle.std.specs.Prelude.{◌≡◌, ◌<◌, take, drop, replicate};
ghost use Rattle.render.specs.Entries.{end_of};
ghost use Rattle.render.specs.Grid.{GridSettings, GridPicture, ticks_between, ticks_past_cells, width_from, cells_used, cells_with, grid_blank, grid_entered, grid_settings, grid_picture, grid_spares};
ghost use Rattle.render.specs.GridLaw.{grid_either_order};

use crate::entry::Entry;
use crate::front::front;
use crate::renderer::Renderer;

// How many cells are used at most.
const MOST_CELLS: usize = 4096;

// A grid over cells that the caller brings, of which the first 4,096 at most are used.
#[derive(Drop)]
pub struct Grid<'a> {
    cells: &'a mut [u32],
    // the ticks that a cell is wide; 0 counts as 1
    width: u16,
    length: u32,
    beyond: u32,
}

// The tick at which the entry has ended.
fn end_of(entry: Entry) -> u64
    ensures { result ≡ end_of entry }
{
    entry.onset as u64 + entry.length as u64
}

// The ticks that the entry sounds from one tick to before another.
fn ticks_within(from: u64, to: u64, entry: Entry) -> u32
    ensures { result ≡ ticks_between from to entry }
{
    let end = end_of(entry).min(to);
    let begin = (entry.onset as u64).max(from);
    end.saturating_sub(begin) as u32
}

// How many of the cells are used.
fn used(cells: &[u32]) -> usize
    ensures { result ≡ cells_used cells.now }
{
    cells.len().min(MOST_CELLS)
}

// Sets every used cell to 0.
fn clear(cells: &mut [u32])
    ensures used { take 4096 cells.new ≡ replicate (cells_used cells.old) 0 }
    ensures others { drop 4096 cells.new ≡ drop 4096 cells.old }
{
    let used = used(cells);
    cells[0..used].fill(0);
}

// Adds to each used cell the ticks that the entry sounds in it, going over those cells only.
fn add_ticks(cells: &mut [u32], width: u32, entry: Entry)
    requires { 0 < width }
    ensures used { take 4096 cells.new ≡ cells_with (record { width = width; number = cells_used cells.old }) entry (take 4096 cells.old) }
    ensures others { drop 4096 cells.new ≡ drop 4096 cells.old }
{
    let wide = width as u64;
    let last = end_of(entry).div_ceil(wide).min(used(cells) as u64);
    let first = (entry.onset as u64 / wide).min(last);
    for i in first..last {
        let ticks = ticks_within(i * wide, (i + 1) * wide, entry);
        let cell = i as usize;
        cells[cell] = cells[cell].saturating_add(ticks);
    }
}

impl<'a> Grid<'a> {
    // A grid as started with length 0.
    pub fn new(cells: &'a mut [u32], width: u32) -> Grid<'a>
        ensures settings { grid_settings result ≡ record { width = width_from width; number = cells_used cells.old } }
        ensures picture { grid_picture result ≡ grid_blank (grid_settings result) 0 }
        ensures others { drop 4096 result.cells.now ≡ drop 4096 cells.old }
        ensures lent { result.cells.ghost_name ≡ cells.entry.ghost_name }
    {
        clear(cells);
        Grid {
            cells,
            width: width.min(65_535) as u16,
            length: 0,
            beyond: 0,
        }
    }

    // The ticks that a cell is wide.
    pub fn width(&self) -> u32
        ensures { result ≡ (grid_settings self.now).width }
    {
        self.width.max(1) as u32
    }

    // The length of the last start.
    pub fn length(&self) -> u32
        ensures { result ≡ (grid_picture self.now).length }
    {
        self.length
    }

    // The counts of the cells that are used.
    pub fn cells(&self) -> &[u32]
        ensures { result.now ≡ (grid_picture self.now).cells }
    {
        front(self.cells, MOST_CELLS)
    }

    // The count of ticks beyond the last cell.
    pub fn beyond(&self) -> u32
        ensures { result ≡ (grid_picture self.now).beyond }
    {
        self.beyond
    }

    // The ticks that the entry sounds beyond the last cell.
    fn ticks_beyond(&self, entry: Entry) -> u32
        ensures { result ≡ ticks_past_cells (grid_settings self.now) entry }
    {
        let edge = used(self.cells) as u64 * self.width() as u64;
        ticks_within(edge, end_of(entry), entry)
    }
}

impl Renderer for Grid<'_> {
    ghost Settings = { GridSettings };

    ghost Picture = { GridPicture };

    ghost settings_of = { grid_settings };

    ghost picture_of = { grid_picture };

    ghost blank = { grid_blank };

    ghost entered = { grid_entered };

    ghost either_order = { grid_either_order };

    ghost spares = { grid_spares };

    fn start(&mut self, length: u32) {
        clear(&mut *self.cells);
        self.length = length;
        self.beyond = 0;
    }

    fn enter(&mut self, entry: Entry) {
        let width = self.width();
        let beyond = self.ticks_beyond(entry);
        add_ticks(&mut *self.cells, width, entry);
        self.beyond = self.beyond.saturating_add(beyond);
    }
}
