// The other sides of the rule that exchanges sequence and parallel.
ghost use Rattle.std.specs.Prelude.{◌≡◌};
ghost use Rattle.std.specs.Option.{option_map};
ghost use Rattle.algebra.specs.declared.rule.Rule.TheVariants.{Exchange};
ghost use Rattle.algebra.specs.Rewrite.{other_side};
ghost use Rattle.rewriting.specs.Plans.{plan_score};
ghost use Rattle.rewriting.specs.Rules.{other_join, exchange_way};

use crate::matching::join_at;
use crate::plan::{Piece, Pieces, Plan};
use kinds::kind::Kind;
use nodes::join::Join;
use nodes::score::Score;

// Parallel for sequence, and sequence for parallel.
fn other(join: Join) -> Join
    ensures { result ≡ other_join join }
{
    match join {
        Join::Sequence => Join::Parallel,
        Join::Parallel => Join::Sequence,
    }
}

// From ((a+b)|(c+d)) to ((a|c)+(b|d)), where a and c have equal lengths, or from ((a|b)+(c|d)) to ((a+c)|(b+d)), where a and b do.
#[tactic(auto, using(crate::proofs::Forms::exchanged, crate::proofs::Forms::parted))]
pub fn exchange<'a, K: Kind>(score: &Score<'a, K>, outer: Join) -> Option<Plan<'a, K>>
    ensures { option_map plan_score result ≡ other_side K.Kind.model Exchange (exchange_way outer) 0 score.now }
{
    let inner = other(outer);
    let (left, right) = join_at(score, outer)?;
    let (a, b) = join_at(&left, inner)?;
    let (c, d) = join_at(&right, inner)?;
    let beside = match outer {
        Join::Sequence => b.length(),
        Join::Parallel => c.length(),
    };
    (a.length() == beside).then_some(Plan::Joined(
        inner,
        Pieces::Two(outer, Piece::Part(a), Piece::Part(c)),
        Pieces::Two(outer, Piece::Part(b), Piece::Part(d)),
    ))
}
