// The refusals, each with its number, part and detail.
ghost use Rattle.std.specs.Prelude.{◌≡◌};
ghost use Rattle.refusals.specs.Numbers.{number_of, part_of, detail_of};

// A section of a score file: its first line, the lines from the second to `prims=`, and the rest.
#[derive(Debug, Clone, Copy, PartialEq, Eq)]
pub enum Section {
    Signature,
    Head,
    Body,
}

// A refusal with its detail.
#[derive(Debug, Clone, Copy, PartialEq, Eq)]
pub enum Refusal {
    // The file has more than 16,384 bytes.
    Oversize,
    // A section of the file breaks the grammar: the offset of the first byte that cannot belong, or the file's length.
    Misfit(Section, u32),
    // The head names another kind than the rack's: the offset of the name.
    OtherKind(u32),
    // The file has too many nodes or primitives: the offset where the first one too many begins.
    TooManyInFile(u32),
    // The kind refuses a primitive's numbers: the offset of the first such primitive.
    IllegalNumbers(u32),
    // The file's score is too long: the offset of its term.
    TooLongInFile(u32),
    // The head's length or count is untrue: the offset of the first untrue value.
    UntrueHead(u32),
    // A number that a call does not take: the first such number.
    BadValue(u32),
    // The rack has no such place: the place.
    NoSuchPlace(u32),
    // The place is empty: the place.
    EmptyPlace(u32),
    // The destination holds a score: the place.
    FullPlace(u32),
    // The score has no such node: its count of nodes.
    NoSuchNode(u32),
    // The rule does not fit, or the split is past the rest's end: the node.
    NoFit(u32),
    // The result has too many nodes or primitives: its count of nodes.
    TooMany(u32),
    // The result is too long: its length.
    TooLong(u32),
    // The buffer is too short: the bytes needed.
    ShortBuffer(u32),
}

// Who refuses.
#[derive(Debug, Clone, Copy, PartialEq, Eq)]
pub enum Part {
    Reading,
    Kind,
    Rack,
}

impl Refusal {
    // The number by which the refusal is known.
    pub fn number(self) -> u32
        ensures { result ≡ number_of self }
    {
        match self {
            Refusal::Oversize => 1,
            Refusal::Misfit(Section::Signature, _) => 2,
            Refusal::Misfit(Section::Head, _) => 3,
            Refusal::OtherKind(_) => 4,
            Refusal::Misfit(Section::Body, _) => 5,
            Refusal::TooManyInFile(_) => 6,
            Refusal::IllegalNumbers(_) => 7,
            Refusal::TooLongInFile(_) => 8,
            Refusal::UntrueHead(_) => 9,
            Refusal::BadValue(_) => 10,
            Refusal::NoSuchPlace(_) => 21,
            Refusal::EmptyPlace(_) => 22,
            Refusal::FullPlace(_) => 23,
            Refusal::NoSuchNode(_) => 24,
            Refusal::NoFit(_) => 25,
            Refusal::TooMany(_) => 26,
            Refusal::TooLong(_) => 27,
            Refusal::ShortBuffer(_) => 28,
        }
    }

    // The reading for a file, the kind for numbers that it refuses, and else the rack.
    pub fn part(self) -> Part
        ensures { result ≡ part_of self }
    {
        match self {
            Refusal::Oversize
            | Refusal::Misfit(..)
            | Refusal::OtherKind(_)
            | Refusal::TooManyInFile(_)
            | Refusal::TooLongInFile(_)
            | Refusal::UntrueHead(_) => Part::Reading,
            Refusal::IllegalNumbers(_) => Part::Kind,
            Refusal::BadValue(_)
            | Refusal::NoSuchPlace(_)
            | Refusal::EmptyPlace(_)
            | Refusal::FullPlace(_)
            | Refusal::NoSuchNode(_)
            | Refusal::NoFit(_)
            | Refusal::TooMany(_)
            | Refusal::TooLong(_)
            | Refusal::ShortBuffer(_) => Part::Rack,
        }
    }

    // The offset, place, value or count that the refusal is about.
    pub fn detail(self) -> u32
        ensures { result ≡ detail_of self }
    {
        match self {
            Refusal::Oversize => 16_384,
            Refusal::Misfit(_, detail)
            | Refusal::OtherKind(detail)
            | Refusal::TooManyInFile(detail)
            | Refusal::IllegalNumbers(detail)
            | Refusal::TooLongInFile(detail)
            | Refusal::UntrueHead(detail)
            | Refusal::BadValue(detail)
            | Refusal::NoSuchPlace(detail)
            | Refusal::EmptyPlace(detail)
            | Refusal::FullPlace(detail)
            | Refusal::NoSuchNode(detail)
            | Refusal::NoFit(detail)
            | Refusal::TooMany(detail)
            | Refusal::TooLong(detail)
            | Refusal::ShortBuffer(detail) => detail,
        }
    }
}
