// A step of rewriting, as the numbers of a call name it.
ghost use Rattle.std.specs.Prelude.{◌≡◌, IfOk, Some};
ghost use Rattle.refusals.specs.Checks.{all};
ghost use Rattle.building.specs.Steps.{step_named, step_checks, step_check};

use algebra::rule::{Rule, Way};
use refusals::refusal::Refusal;
use rewriting::step::Step;

// The step that three numbers name: a rule from 1 to 9, a way 0 or 1, and a split, which is 0 except for rule 7, way 1.
pub fn step_named(rule: u32, way: u32, split: u32) -> Result<Step, Refusal>
    ensures answer { step_check result ≡ all (step_checks rule way split) }
    ensures step { IfOk result (λ step. Some step ≡ step_named rule way split) }
{
    let rule = Rule::try_from(rule).map_err(|unnamed| Refusal::BadValue(unnamed.0))?;
    let way = Way::try_from(way).map_err(|unnamed| Refusal::BadValue(unnamed.0))?;
    if split != 0 && !matches!((rule, way), (Rule::RestSplit, Way::Back)) {
        return Err(Refusal::BadValue(split));
    }
    Ok(Step { rule, way, split })
}
