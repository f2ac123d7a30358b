// One step of rewriting of a score.
ghost use Rattle.std.specs.Prelude.{◌≡◌, ◌+◌, ◌<◌, ◌≤◌, length, Some};
ghost use Rattle.algebra.specs.Score.{nodes as nodes_of};
ghost use Rattle.building.specs.Rows.{laid, score_in};
ghost use Rattle.building.specs.Steps.{stepped, stepped_size};

use crate::keeping::undo_refused;
use crate::size::{Size, size_within};
use kinds::kind::Kind;
use nodes::list::NodeList;
use nodes::score::Score;
use refusals::refusal::Refusal;
use rewriting::rewrite::rewrite_into;
use rewriting::step::Step;

// Puts what a step at a node makes of a score behind the nodes of a list, where it fits and is within the limits, and returns its size.
pub fn rewrite<K: Kind>(
    score: &Score<'_, K>,
    node: u32,
    step: Step,
    out: &mut NodeList<'_, K>,
) -> Result<Size, Refusal>
    requires inside { node < nodes_of score.now }
    requires room { length out.old.items + 1023 ≤ out.old.room }
    ensures answer { result ≡ stepped_size K.Kind.model node (stepped K.Kind.model (Some step) node score.now) }
    ensures after { out.new ≡ laid result out.old (score_in (stepped K.Kind.model (Some step) node score.now)) }
{
    let before = out.len();
    rewrite_into(score, node, step, out)?;
    let size = size_within(&out.as_slice()[before..], score.length());
    undo_refused(out, before, &size);
    size
}
