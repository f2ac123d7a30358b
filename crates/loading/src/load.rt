// From a headed reading to checked items.
ghost use Rattle.loading.specs.Gives.{Gives};

use crate::checking::{Loaded, check};
use grammar::draft::Draft;
use kinds::kind::Kind;
use reading::states::HeadedReading;
use refusals::refusal::Refusal;

// Uses up a headed reading: reads its file into the draft and checks it for a kind.
pub fn load<K: Kind>(reading: HeadedReading<'_>, draft: &mut Draft) -> Result<Loaded, Refusal>
    ensures { Gives K.Kind.model reading.entry.text.now draft.new result }
{
    let name = K::name();
    let head = reading.read(name.as_bytes(), draft)?;
    check::<K>(head, draft.items())
}
