// What may be made of a score.
ghost use Rattle.std.specs.Prelude.{◌≡◌};
ghost use Rattle.building.specs.Changes.{changed_length};

// A change of a score: its reverse, its first ticks, what follows them, or its normal form.
#[derive(Clone, Copy)]
pub enum Change {
    Reverse,
    Take(u32),
    Drop(u32),
    Normalise,
}

impl Change {
    // The length of the result, from that of the score.
    pub fn length(self, length: u32) -> u32
        ensures { result ≡ changed_length self length }
    {
        match self {
            Change::Reverse | Change::Normalise => length,
            Change::Take(ticks) => length.min(ticks),
            Change::Drop(ticks) => length.saturating_sub(ticks),
        }
    }
}
