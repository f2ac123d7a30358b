// The other sides of the rules by which a rest that changes nothing is left out or put in.
ghost use Rattle.std.specs.Prelude.{◌≡◌, Some};
ghost use Rattle.std.specs.Option.{option_map};
ghost use Rattle.algebra.specs.declared.rule.Way.TheVariants.{Forth, Back};
ghost use Rattle.algebra.specs.Rewrite.{other_side};
ghost use Rattle.rewriting.specs.Plans.{plan_score};
ghost use Rattle.rewriting.specs.Rules.{unit_left, unit_right, left_ticks};

use crate::matching::{join_at, rest_at};
use crate::plan::{Piece, Pieces, Plan};
use kinds::kind::Kind;
use nodes::join::Join;
use nodes::score::Score;

// How long the rest before a score is that changes nothing: none in sequence, and beside it as long as the score.
fn ticks_before<K: Kind>(score: &Score<'_, K>, join: Join) -> u32
    ensures { result ≡ left_ticks K.Kind.model join score.now }
{
    match join {
        Join::Sequence => 0,
        Join::Parallel => score.length(),
    }
}

// From (r0+a) to a, or from (rn|a) to a, where n is the length of a.
#[tactic(auto, using(crate::proofs::Forms::unit_left_lem, crate::proofs::Forms::parted))]
pub fn without_left<'a, K: Kind>(score: &Score<'a, K>, join: Join) -> Option<Plan<'a, K>>
    ensures { option_map plan_score result ≡ other_side K.Kind.model (unit_left join) Forth 0 score.now }
{
    let (unit, a) = join_at(score, join)?;
    let ticks = rest_at(&unit)?;
    (ticks == ticks_before(&a, join)).then_some(Plan::Simple(Pieces::One(Piece::Part(a))))
}

// From (a r0) to a.
#[tactic(auto, using(crate::proofs::Forms::unit_right_lem, crate::proofs::Forms::parted))]
pub fn without_right<'a, K: Kind>(score: &Score<'a, K>, join: Join) -> Option<Plan<'a, K>>
    ensures { option_map plan_score result ≡ other_side K.Kind.model (unit_right join) Forth 0 score.now }
{
    let (a, unit) = join_at(score, join)?;
    let ticks = rest_at(&unit)?;
    (ticks == 0).then_some(Plan::Simple(Pieces::One(Piece::Part(a))))
}

// From a to (r0+a), or to (rn|a), where n is the length of a.
pub fn with_left<'a, K: Kind>(score: Score<'a, K>, join: Join) -> Plan<'a, K>
    ensures { Some (plan_score result) ≡ other_side K.Kind.model (unit_left join) Back 0 score.entry }
{
    let ticks = ticks_before(&score, join);
    Plan::Simple(Pieces::Two(join, Piece::Rest(ticks), Piece::Part(score)))
}

// From a to (a r0).
pub fn with_right<'a, K: Kind>(score: Score<'a, K>, join: Join) -> Plan<'a, K>
    ensures { Some (plan_score result) ≡ other_side K.Kind.model (unit_right join) Back 0 score.entry }
{
    Plan::Simple(Pieces::Two(join, Piece::Part(score), Piece::Rest(0)))
}
