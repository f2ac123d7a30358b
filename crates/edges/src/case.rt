// A line of the table: a file, how many bytes of it are used, the rack's kind, and the answer.
#[derive(Clone, Copy)]
pub struct Case<'a> {
    pub file: &'a str,
    pub keep: Option<usize>,
    pub kind: &'a str,
    pub answer: &'a str,
}

// The case that a line says, if it is one.
pub fn parse<'a>(line: &'a str) -> Option<Case<'a>> {
    let (file, rest) = line.split_once(' ')?;
    let (keep, rest) = rest.split_once(' ')?;
    let (kind, answer) = rest.split_once(' ')?;
    let keep = if keep == "-" {
        None
    } else {
        Some(keep.parse::<usize>().ok()?)
    };
    Some(Case {
        file,
        keep,
        kind,
        answer,
    })
}
