// One rewriting step of a score.
ghost use Rattle.std.specs.Prelude.{◌<◌};
ghost use Rattle.algebra.specs.Score.{nodes};
ghost use Rattle.algebra.specs.Rewrite.{rewritten};
ghost use Rattle.rewriting.specs.Rewritings.{Rewrote};

use crate::planning::plan;
use crate::step::Step;
use kinds::kind::Kind;
use nodes::list::NodeList;
use nodes::score::Score;
use refusals::refusal::Refusal;

// Puts a score behind the nodes of a list, with the other side of a step's rule at a node, where the rule fits there and the list has room.
pub fn rewrite_into<K: Kind>(
    score: &Score<'_, K>,
    node: u32,
    step: Step,
    out: &mut NodeList<'_, K>,
) -> Result<(), Refusal>
    requires { node < nodes score.now }
    ensures { Rewrote node (rewritten K.Kind.model step.rule step.way step.split node score.now) out.old out.new result }
{
    let at = node as usize;
    let part = score.part(at);
    let after = at + part.count();
    let plan = plan(part, step).ok_or(Refusal::NoFit(node))?;
    let total = at + plan.count() + score.count() - after;
    if out.spare() < total {
        return Err(Refusal::TooMany(total as u32));
    }
    let nodes = score.nodes();
    out.extend(&nodes[..at]);
    plan.write_into(out);
    out.extend(&nodes[after..]);
    Ok(())
}
