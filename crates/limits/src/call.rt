// The calls of the cases.
use ledger::call::Call;

// A file of one note of 480 ticks.
const NOTE: &[u8] = b"score=6\nkind=note\nlength=480\nprims=1\nbody=p60,96,480,0\nend=score\n";

// Loads the file of one note.
pub fn note(to: u32) -> Call<'static> {
    Call::Load { to, text: NOTE }
}

pub fn rest(to: u32, ticks: u32) -> Call<'static> {
    Call::Rest { to, ticks }
}

pub fn sequence(to: u32, first: u32, second: u32) -> Call<'static> {
    Call::JoinSequence { to, first, second }
}

pub fn parallel(to: u32, first: u32, second: u32) -> Call<'static> {
    Call::JoinParallel { to, first, second }
}

pub fn reverse(to: u32, from: u32) -> Call<'static> {
    Call::Reverse { to, from }
}

pub fn take(to: u32, from: u32, ticks: u32) -> Call<'static> {
    Call::Take { to, from, ticks }
}

pub fn drop(to: u32, from: u32, ticks: u32) -> Call<'static> {
    Call::Drop { to, from, ticks }
}

pub fn normalise(to: u32, from: u32) -> Call<'static> {
    Call::Normalise { to, from }
}

pub fn rewrite(place: u32, node: u32, rule: u32, way: u32, split: u32) -> Call<'static> {
    Call::Rewrite {
        place,
        node,
        rule,
        way,
        split,
    }
}

pub fn clear(place: u32) -> Call<'static> {
    Call::Clear { place }
}

pub fn tell(place: u32) -> Call<'static> {
    Call::Tell { place }
}
