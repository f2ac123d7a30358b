// The interface of a kind of primitive.
ghost use Rattle.std.specs.Prelude.{◌≡◌, true};
ghost use Rattle.algebra.specs.declared.numbers.Numbers.{Numbers};
ghost use Rattle.algebra.specs.Kind.{KindModel, KindLaws};
ghost use Rattle.kinds.specs.Answers.{numbered, made, head_at, tail_at};

use algebra::numbers::Numbers;
use std::cmp::Ordering;

// A kind of primitive. What it answers is fixed by the primitive's numbers, as `model` says.
pub trait Kind: Copy {
    ghost model: { KindModel };

    ghost numbers_of: { Self → Numbers };

    // The kind's name, 1 to 8 lower-case letters.
    fn name<'a>() -> &'a str
        ensures { result.now ≡ model.name };

    // The primitive with just these numbers; none where they are not legal.
    fn make(numbers: Numbers) -> Option<Self>
        ensures { numbered numbers_of result ≡ made model numbers };

    // The four numbers that the primitive means.
    fn numbers(&self) -> Numbers
        ensures { result ≡ numbers_of self.now };

    // Whether the primitive comes before the other, is the same or comes after it.
    fn compare(&self, other: &Self) -> Ordering
        ensures { result ≡ model.compare_of (numbers_of self.now) (numbers_of other.now) };

    // The length in ticks.
    fn length(&self) -> u32
        ensures { result ≡ model.length_of (numbers_of self.now) };

    // The primitive played backward.
    fn reverse(self) -> Self
        ensures { numbers_of result ≡ model.reverse_of (numbers_of self) };

    // The first ticks, from 1 tick to all; else none.
    fn head(self, ticks: u32) -> Option<Self>
        ensures { numbered numbers_of result ≡ head_at model (numbers_of self) ticks };

    // What follows the first ticks, from none of them to all but one; else none.
    fn tail(self, ticks: u32) -> Option<Self>
        ensures { numbered numbers_of result ≡ tail_at model (numbers_of self) ticks };

    ghost lawful: { KindLaws model };

    ghost legal: { (x : Self) → model.legal (numbers_of x) ≡ true };
}
