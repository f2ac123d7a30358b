// The other sides of the rule by which rests are merged or split.
ghost use Rattle.std.specs.Prelude.{◌≡◌};
ghost use Rattle.std.specs.Option.{option_map};
ghost use Rattle.algebra.specs.declared.rule.Rule.TheVariants.{RestSplit};
ghost use Rattle.algebra.specs.declared.rule.Way.TheVariants.{Forth, Back};
ghost use Rattle.algebra.specs.Rewrite.{other_side};
ghost use Rattle.rewriting.specs.Plans.{plan_score};

use crate::matching::{join_at, rest_at};
use crate::plan::{Piece, Pieces, Plan};
use kinds::kind::Kind;
use nodes::join::Join;
use nodes::score::Score;

// From (ri+rj) to the rest of both lengths.
pub fn merge_rests<'a, K: Kind>(score: &Score<'a, K>) -> Option<Plan<'a, K>>
    ensures { option_map plan_score result ≡ other_side K.Kind.model RestSplit Forth 0 score.now }
{
    let (left, right) = join_at(score, Join::Sequence)?;
    let first = rest_at(&left)?;
    let second = rest_at(&right)?;
    Some(Plan::Simple(Pieces::One(Piece::Rest(first + second))))
}

// From a rest to two, where the first is no longer than it.
pub fn split_rest<'a, K: Kind>(score: &Score<'a, K>, split: u32) -> Option<Plan<'a, K>>
    ensures { option_map plan_score result ≡ other_side K.Kind.model RestSplit Back split score.now }
{
    let whole = rest_at(score)?;
    if split > whole {
        return None;
    }
    Some(Plan::Simple(Pieces::Two(
        Join::Sequence,
        Piece::Rest(split),
        Piece::Rest(whole - split),
    )))
}
