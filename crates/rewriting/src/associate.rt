// The other sides of the rules that regroup or exchange the parts of joins of one kind.
ghost use Rattle.std.specs.Prelude.{◌≡◌};
ghost use Rattle.std.specs.Option.{option_map};
ghost use Rattle.algebra.specs.declared.rule.Rule.TheVariants.{ParallelCommutative};
ghost use Rattle.algebra.specs.declared.rule.Way.TheVariants.{Forth, Back};
ghost use Rattle.algebra.specs.Rewrite.{other_side};
ghost use Rattle.rewriting.specs.Plans.{plan_score};
ghost use Rattle.rewriting.specs.Rules.{associative};

use crate::matching::join_at;
use crate::plan::{Piece, Pieces, Plan};
use kinds::kind::Kind;
use nodes::join::Join;
use nodes::score::Score;

// From ((a b) c) to (a (b c)).
#[tactic(auto, using(crate::proofs::Forms::associated_forth, crate::proofs::Forms::parted))]
pub fn associate_forth<'a, K: Kind>(score: &Score<'a, K>, join: Join) -> Option<Plan<'a, K>>
    ensures { option_map plan_score result ≡ other_side K.Kind.model (associative join) Forth 0 score.now }
{
    let (left, c) = join_at(score, join)?;
    let (a, b) = join_at(&left, join)?;
    Some(Plan::Joined(
        join,
        Pieces::One(Piece::Part(a)),
        Pieces::Two(join, Piece::Part(b), Piece::Part(c)),
    ))
}

// From (a (b c)) to ((a b) c).
#[tactic(auto, using(crate::proofs::Forms::associated_back, crate::proofs::Forms::parted))]
pub fn associate_back<'a, K: Kind>(score: &Score<'a, K>, join: Join) -> Option<Plan<'a, K>>
    ensures { option_map plan_score result ≡ other_side K.Kind.model (associative join) Back 0 score.now }
{
    let (a, right) = join_at(score, join)?;
    let (b, c) = join_at(&right, join)?;
    Some(Plan::Joined(
        join,
        Pieces::Two(join, Piece::Part(a), Piece::Part(b)),
        Pieces::One(Piece::Part(c)),
    ))
}

// From (a|b) to (b|a).
pub fn commute<'a, K: Kind>(score: &Score<'a, K>) -> Option<Plan<'a, K>>
    ensures { option_map plan_score result ≡ other_side K.Kind.model ParallelCommutative Forth 0 score.now }
{
    let (a, b) = join_at(score, Join::Parallel)?;
    Some(Plan::Simple(Pieces::Two(Join::Parallel, Piece::Part(b), Piece::Part(a))))
}
