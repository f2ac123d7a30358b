// The nine rules by which a score is rewritten, and the two ways of each.
// Letters a to d stand for scores, i, j and n for lengths of rests; `r0` is the rest of length 0.
ghost use Rattle.algebra.specs.Numbered.{RuleNumbered, WayNumbered};

// A number that names no rule, or no way.
#[derive(Clone, Copy)]
pub struct Unnamed(pub u32);

// The rules, in their order. Each line shows both sides, the left one first.
#[derive(Clone, Copy)]
pub enum Rule {
    // ((a+b)+c) and (a+(b+c))
    SequenceAssociative,
    // ((a|b)|c) and (a|(b|c))
    ParallelAssociative,
    // (a|b) and (b|a)
    ParallelCommutative,
    // (r0+a) and a
    SequenceUnitLeft,
    // (a+r0) and a
    SequenceUnitRight,
    // (a|r0) and a
    ParallelUnit,
    // (ri+rj) and rn, with n = i + j
    RestSplit,
    // (rn|a) and a, where n is the length of a
    RestBeside,
    // ((a+b)|(c+d)) and ((a|c)+(b|d)), where a and c have equal lengths
    Exchange,
}

// The rules are numbered from 1 to 9.
impl TryFrom<u32> for Rule {
    type Error = Unnamed;

    ghost try_from_gives = { RuleNumbered };

    fn try_from(number: u32) -> Result<Rule, Unnamed> {
        match number {
            1 => Ok(Rule::SequenceAssociative),
            2 => Ok(Rule::ParallelAssociative),
            3 => Ok(Rule::ParallelCommutative),
            4 => Ok(Rule::SequenceUnitLeft),
            5 => Ok(Rule::SequenceUnitRight),
            6 => Ok(Rule::ParallelUnit),
            7 => Ok(Rule::RestSplit),
            8 => Ok(Rule::RestBeside),
            9 => Ok(Rule::Exchange),
            _ => Err(Unnamed(number)),
        }
    }
}

// The way in which a rule is put to use.
#[derive(Clone, Copy)]
pub enum Way {
    // from the left side to the right: ((a+b)+c) becomes (a+(b+c))
    Forth,
    // from the right side to the left: (a+(b+c)) becomes ((a+b)+c)
    Back,
}

// Forth is way 0, and back is way 1.
impl TryFrom<u32> for Way {
    type Error = Unnamed;

    ghost try_from_gives = { WayNumbered };

    fn try_from(number: u32) -> Result<Way, Unnamed> {
        match number {
            0 => Ok(Way::Forth),
            1 => Ok(Way::Back),
            _ => Err(Unnamed(number)),
        }
    }
}
