// What a score is, where a certain form is looked for.
ghost use Rattle.rewriting.specs.Matches.{JoinFound, RestFound};

use kinds::kind::Kind;
use nodes::join::Join;
use nodes::score::{Look, Score};

// The two parts of a score, if it is such a join.
pub fn join_at<'a, K: Kind>(
    score: &Score<'a, K>,
    join: Join,
) -> Option<(Score<'a, K>, Score<'a, K>)>
    ensures { JoinFound join score.now result }
{
    match (score.look(), join) {
        (Look::Pair(Join::Sequence, left, right), Join::Sequence)
        | (Look::Pair(Join::Parallel, left, right), Join::Parallel) => Some((left, right)),
        _ => None,
    }
}

// The length of a rest, if a score is one.
pub fn rest_at<K: Kind>(score: &Score<'_, K>) -> Option<u32>
    ensures { RestFound score.now result }
{
    match score.look() {
        Look::Rest(ticks) => Some(ticks),
        _ => None,
    }
}
