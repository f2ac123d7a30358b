// The calls on a rack.
ghost use Rattle.std.specs.Prelude.{◌≡◌, ◌≤◌, length, take, replicate, IfOk, None};
ghost use Rattle.rack.specs.Places.{number};
ghost use Rattle.rack.specs.Shelves.{score_held, AllHoldable};
ghost use Rattle.rack.specs.Calls.{LoadedAt, tell_answer, clear_answer, cleared, bytes_at, write_answer};
ghost use Rattle.rack.specs.Written.{FileOf};
ghost use Rattle.writing.specs.Writes.{written_over};

use crate::place::Place;
use crate::rack::Rack;
use algebra::limits::MOST_NODES;
use algebra::node::Node;
use grammar::draft::Draft;
use kinds::kind::Kind;
use loading::load::load;
use loading::placing::place;
use reading::states::HeadedReading;
use refusals::refusal::Refusal;
use writing::file::write_told;

impl<'a, K: Kind> Rack<'a, K> {
    // A rack with a place for each 1,023 of the nodes, up to 8, all empty.
    pub fn new(nodes: &'a mut [Node<K>]) -> Rack<'a, K>
        ensures { result ≡ replicate (number nodes.old) None }
    {
        Rack {
            nodes,
            places: [None; 8],
        }
    }

    // Puts the score of a file at an empty place. The reading is used up.
    pub fn load(&mut self, to: u32, reading: HeadedReading<'_>) -> Result<(), Refusal>
        ensures { LoadedAt K.Kind.model reading.entry.text.now to self.old self.new result }
    {
        let mut draft = Draft::new();
        let loaded = load::<K>(reading, &mut draft)?;
        self.known(to)?;
        self.vacant(to)?;
        place(draft.items(), self.nodes, to as usize * MOST_NODES);
        self.places[to as usize] = Some(Place {
            nodes: loaded.nodes,
            primitives: loaded.primitives,
        });
        Ok(())
    }

    // The length of the score at a place, and how many nodes and primitives it has.
    pub fn tell(&self, place: u32) -> Result<(u32, u32, u32), Refusal>
        ensures answer { result ≡ tell_answer K.Kind.model self.now place }
        ensures holds { AllHoldable K.Kind.model self.now }
        ensures places { length self.now ≤ 8 }
    {
        let _ = &self.nodes;
        self.known(place)?;
        let held = self.held(place)?;
        Ok((held.length(), held.noted.nodes, held.noted.primitives))
    }

    // Empties a place that holds a score.
    pub fn clear(&mut self, place: u32) -> Result<(), Refusal>
        ensures answer { result ≡ clear_answer self.old place }
        ensures after { self.new ≡ cleared result self.old place }
    {
        self.known(place)?;
        self.held(place)?;
        self.empty(place);
        Ok(())
    }

    // Writes the file of the score at a place from the start of the buffer, and returns how many bytes it has.
    pub fn write(&self, place: u32, buffer: &mut [u8]) -> Result<u32, Refusal>
        ensures answer { result ≡ write_answer K.Kind.model self.now place (length buffer.old) }
        ensures after { buffer.new ≡ written_over result (bytes_at K.Kind.model self.now place) buffer.old }
        ensures file { IfOk result (λ n. FileOf K.Kind.model (score_held self.now place) (take n buffer.new)) }
    {
        self.known(place)?;
        let held = self.held(place)?;
        write_told(held.nodes, held.length(), held.noted.primitives, buffer)
    }
}
