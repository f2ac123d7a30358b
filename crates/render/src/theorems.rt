// What is proved of rolls and grids: each function's contract is a group of theorems, and the function does nothing.
ghost use Rattle.render.specs.Theorems.{RollShows, TimesFixNumber, GridShows, TicksCounted, TicksWhole};

// A roll shows how often it was given each entry.
pub fn rolls_stand() -> u8
    ensures shows { RollShows }
    ensures number { TimesFixNumber }
{
    0
}

// A grid shows how many ticks the entries sound in each cell and beyond the cells.
pub fn grids_stand() -> u8
    ensures shows { GridShows }
    ensures ticks { TicksCounted }
    ensures whole { TicksWhole }
{
    0
}
