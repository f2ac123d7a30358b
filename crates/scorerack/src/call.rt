// Lines of a script as calls.
use arrayvec::ArrayVec;
use ledger::call::Call;

// What a line of a script asks for.
#[derive(Clone, Copy)]
pub enum Line<'a> {
    // A call that needs neither a buffer nor a renderer.
    Plain(Call<'static>),
    // The file that a call writes, in a buffer of so many bytes.
    Written(Call<'static>, u32),
    // A file read and loaded.
    Load { to: u32, file: &'a str },
    // A score drawn on a roll over a row for so many entries.
    Roll { place: u32, capacity: u32 },
    // A score drawn on a grid over a row of so many counts.
    Grid { place: u32, width: u32, cells: u32 },
}

// Whether a line is empty or a comment.
pub fn skipped(line: &str) -> bool {
    line.is_empty() || line.starts_with('#')
}

// One more than the longest call has, so that a line with more words than that is no call.
const MOST_WORDS: usize = 7;

// The words of a line, between single spaces, and no more of them than tell whether it is a call.
pub fn words_of<'a>(line: &'a str) -> ArrayVec<&'a str, MOST_WORDS> {
    let mut words = ArrayVec::new();
    for word in line.split(' ').take(MOST_WORDS) {
        let _ = words.try_push(word);
    }
    words
}

fn number(word: &str) -> Option<u32> {
    word.parse::<u32>().ok()
}

// The kind and the number of places that a script's first line names, if it asks for a rack.
pub fn parse_opening<'a>(words: &[&'a str]) -> Option<(&'a str, u32)> {
    match words {
        ["rack", kind, places] => Some((*kind, number(*places)?)),
        _ => None,
    }
}

// The numbers that words are, if they are numbers, and no more than a rewriting has.
fn parse_numbers(words: &[&str]) -> Option<ArrayVec<u32, 5>> {
    let mut numbers = ArrayVec::new();
    for word in words {
        numbers.try_push(number(*word)?).ok()?;
    }
    Some(numbers)
}

// The call of a name and numbers that needs nothing else.
fn parse_plain(name: &str, numbers: &[u32]) -> Option<Call<'static>> {
    let call = match (name, numbers) {
        ("rest", &[to, ticks]) => Call::Rest { to, ticks },
        ("seq", &[to, first, second]) => Call::JoinSequence { to, first, second },
        ("par", &[to, first, second]) => Call::JoinParallel { to, first, second },
        ("reverse", &[to, from]) => Call::Reverse { to, from },
        ("take", &[to, from, ticks]) => Call::Take { to, from, ticks },
        ("drop", &[to, from, ticks]) => Call::Drop { to, from, ticks },
        ("normalise", &[to, from]) => Call::Normalise { to, from },
        ("rewrite", &[place, node, rule, way, split]) => Call::Rewrite {
            place,
            node,
            rule,
            way,
            split,
        },
        ("clear", &[place]) => Call::Clear { place },
        ("tell", &[place]) => Call::Tell { place },
        ("compare", &[first, second]) => Call::Compare { first, second },
        _ => return None,
    };
    Some(call)
}

// What a line's words ask for, if they are a call.
pub fn parse<'a>(words: &[&'a str]) -> Option<Line<'a>> {
    if let ["load", to, file] = words {
        return Some(Line::Load {
            to: number(*to)?,
            file: *file,
        });
    }
    let (name, others) = words.split_first()?;
    let numbers = parse_numbers(others)?;
    let line = match (*name, numbers.as_slice()) {
        ("write", &[place, room]) => Line::Written(Call::Write { place }, room),
        ("write_normal", &[place, model, room]) => {
            Line::Written(Call::WriteNormal { place, model }, room)
        }
        ("roll", &[place, capacity]) => Line::Roll { place, capacity },
        ("grid", &[place, width, cells]) => Line::Grid {
            place,
            width,
            cells,
        },
        (name, numbers) => Line::Plain(parse_plain(name, numbers)?),
    };
    Some(line)
}
