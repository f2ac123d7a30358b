// What is put behind the nodes of a list stays there only where it is not refused.
ghost use Rattle.std.specs.Prelude.{◌≡◌, ◌≤◌, length};
ghost use Rattle.building.specs.Rows.{kept};

use crate::size::Size;
use kinds::kind::Kind;
use nodes::list::NodeList;
use refusals::refusal::Refusal;

// Takes out what stands behind the first nodes of a list, where an answer refuses it.
pub fn undo_refused<K: Kind>(
    out: &mut NodeList<'_, K>,
    before: usize,
    answer: &Result<Size, Refusal>,
)
    requires { before ≤ length out.old.items }
    ensures { out.new ≡ kept answer.now before out.old }
{
    if answer.is_err() {
        out.truncate(before);
    }
}
