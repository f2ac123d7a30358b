// The other side of any rule, where a score is one side of it.
ghost use Rattle.std.specs.Prelude.{◌≡◌};
ghost use Rattle.std.specs.Option.{option_map};
ghost use Rattle.algebra.specs.declared.rule.Way.TheVariants.{Forth, Back};
ghost use Rattle.algebra.specs.Rewrite.{other_side};
ghost use Rattle.rewriting.specs.Plans.{plan_score};

use crate::associate::{associate_back, associate_forth, commute};
use crate::exchange::exchange;
use crate::plan::Plan;
use crate::rests::{merge_rests, split_rest};
use crate::step::Step;
use crate::units::{with_left, with_right, without_left, without_right};
use algebra::rule::{Rule, Way};
use kinds::kind::Kind;
use nodes::join::Join;
use nodes::score::Score;

// From the left side of a rule to its right side.
fn plan_forth<'a, K: Kind>(score: &Score<'a, K>, rule: Rule) -> Option<Plan<'a, K>>
    ensures { option_map plan_score result ≡ other_side K.Kind.model rule Forth 0 score.now }
{
    match rule {
        Rule::SequenceAssociative => associate_forth(score, Join::Sequence),
        Rule::ParallelAssociative => associate_forth(score, Join::Parallel),
        Rule::ParallelCommutative => commute(score),
        Rule::SequenceUnitLeft => without_left(score, Join::Sequence),
        Rule::SequenceUnitRight => without_right(score, Join::Sequence),
        Rule::ParallelUnit => without_right(score, Join::Parallel),
        Rule::RestSplit => merge_rests(score),
        Rule::RestBeside => without_left(score, Join::Parallel),
        Rule::Exchange => exchange(score, Join::Parallel),
    }
}

// From the right side of a rule to its left side. Only a rest that is split looks at the split.
fn plan_back<'a, K: Kind>(score: Score<'a, K>, rule: Rule, split: u32) -> Option<Plan<'a, K>>
    ensures { option_map plan_score result ≡ other_side K.Kind.model rule Back split score.entry }
{
    match rule {
        Rule::SequenceAssociative => associate_back(&score, Join::Sequence),
        Rule::ParallelAssociative => associate_back(&score, Join::Parallel),
        Rule::ParallelCommutative => commute(&score),
        Rule::SequenceUnitLeft => Some(with_left(score, Join::Sequence)),
        Rule::SequenceUnitRight => Some(with_right(score, Join::Sequence)),
        Rule::ParallelUnit => Some(with_right(score, Join::Parallel)),
        Rule::RestSplit => split_rest(&score, split),
        Rule::RestBeside => Some(with_left(score, Join::Parallel)),
        Rule::Exchange => exchange(&score, Join::Sequence),
    }
}

// From one side of a step's rule to the other.
pub fn plan<'a, K: Kind>(score: Score<'a, K>, step: Step) -> Option<Plan<'a, K>>
    ensures { option_map plan_score result ≡ other_side K.Kind.model step.rule step.way step.split score.entry }
{
    match step.way {
        Way::Forth => plan_forth(&score, step.rule),
        Way::Back => plan_back(score, step.rule, step.split),
    }
}
