// The calls that draw a score, and what they answer.
use crate::play::Player;
use crate::say::say;
use algebra::limits::MOST_PRIMITIVES;
use algebra::numbers::Numbers;
use kinds::kind::Kind;
use render::entry::Entry;
use render::grid::Grid;
use render::roll::Roll;

// A grid uses at most 4,096 cells, so a row of more counts changes no answer.
const MOST_CELLS: usize = 4096;

// Shows entries, ascending by onset and then by the four numbers.
fn list(rt: &HostRuntime, entries: &[Entry]) -> anyhow::Result<()> {
    let mut sorted = entries.to_vec(rt.alloc())?;
    sorted.sort_unstable_by_key(|entry| (entry.onset, entry.numbers, entry.length));
    for entry in &sorted {
        println!(rt; "  {} {} {}", entry.onset, entry.length, entry.numbers)?;
    }
    Ok(())
}

impl<K: Kind> Player<'_, '_, K> {
    // Draws the score at a place on a roll over a row for so many entries, and shows it. A score has no more entries than
    // primitives, so a longer row would change no answer.
    pub fn roll(&self, place: u32, capacity: u32) -> anyhow::Result<()> {
        let rt = self.rt;
        let blank = Entry {
            onset: 0,
            length: 0,
            numbers: Numbers::default(),
        };
        let mut row = vec![in rt.alloc(); blank; (capacity as usize).min(MOST_PRIMITIVES)]?;
        let mut roll = Roll::new(&mut row);
        if let Err(refusal) = self.rack.draw(place, &mut roll) {
            return say(rt, Err(refusal));
        }
        let length = roll.length();
        match roll.entries() {
            Some(entries) => {
                println!(rt; "length={length} entries={}", entries.len())?;
                list(rt, entries)
            }
            None => {
                println!(rt; "length={length} overfull")?;
                Ok(())
            }
        }
    }

    // Draws the score at a place on a grid over a row of so many counts, and shows it.
    pub fn grid(&self, place: u32, width: u32, cells: u32) -> anyhow::Result<()> {
        let rt = self.rt;
        let mut counts = vec![in rt.alloc(); 0u32; (cells as usize).min(MOST_CELLS)]?;
        let mut grid = Grid::new(&mut counts, width);
        if let Err(refusal) = self.rack.draw(place, &mut grid) {
            return say(rt, Err(refusal));
        }
        print!(rt; "length={} cells=", grid.length())?;
        if let Some((first, others)) = grid.cells().split_first() {
            print!(rt; "{first}")?;
            for count in others {
                print!(rt; ",{count}")?;
            }
        }
        println!(rt; " beyond={}", grid.beyond())?;
        Ok(())
    }
}
