// What a change makes of a score.
ghost use Rattle.std.specs.Prelude.{◌≡◌, ◌+◌, ◌≤◌, length as length_of};
ghost use Rattle.building.specs.Changes.{changed};
ghost use Rattle.building.specs.Rows.{laid};
ghost use Rattle.building.specs.Sizes.{sized};

use crate::change::Change;
use crate::keeping::undo_refused;
use crate::size::{Size, size_within};
use algebra::limits::MOST_NODES;
use cuts::count::reversed_nodes;
use cuts::drop::drop_into;
use cuts::reverse::reverse_into;
use cuts::take::take_into;
use kinds::kind::Kind;
use nodes::list::NodeList;
use nodes::score::Score;
use normal::normal::normalise_into;
use refusals::refusal::Refusal;

// Puts what a change makes of a score behind the nodes of a list, where it is within the limits, and returns its size.
// Only a reverse may have more nodes than a score may.
pub fn change<K: Kind>(
    score: &Score<'_, K>,
    change: Change,
    out: &mut NodeList<'_, K>,
) -> Result<Size, Refusal>
    requires { length_of out.old.items + 1023 ≤ out.old.room }
    ensures answer { result ≡ sized K.Kind.model (changed K.Kind.model change score.now) }
    ensures after { out.new ≡ laid result out.old (changed K.Kind.model change score.now) }
{
    let length = change.length(score.length());
    let before = out.len();
    match change {
        Change::Reverse => {
            let count = reversed_nodes(score);
            if count as usize > MOST_NODES {
                return Err(Refusal::TooMany(count));
            }
            reverse_into(score, out);
        }
        Change::Take(ticks) => take_into(score, ticks, out),
        Change::Drop(ticks) => drop_into(score, ticks, out),
        Change::Normalise => normalise_into(score, out),
    }
    let size = size_within(&out.as_slice()[before..], length);
    undo_refused(out, before, &size);
    size
}
