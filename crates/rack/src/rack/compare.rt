// The calls on two scores: comparing them, and writing the normal form of one after the other.
ghost use Rattle.std.specs.Prelude.{◌≡◌, ◌↔◌, ◌≤◌, length, IfOk, OnOk};
ghost use Rattle.algebra.specs.Compare.{compared};
ghost use Rattle.algebra.specs.Rules.{Chain};
ghost use Rattle.comparing.specs.declared.comparison.Comparison.TheVariants.{Same};
ghost use Rattle.comparing.specs.Comparisons.{said};
ghost use Rattle.nodes.specs.Standing.{standing_score};
ghost use Rattle.normal_file.specs.Bytes.{normal_bytes};
ghost use Rattle.writing.specs.Writes.{written_answer, written_over};
ghost use Rattle.rack.specs.Shelves.{score_held};
ghost use Rattle.rack.specs.Comparing.{compare_answer, OnlyAnswer, normal_bytes_at, write_normal_answer, BytesDecide};

use crate::rack::Rack;
use crate::rack::places::Held;
use algebra::limits::MOST_NODES;
use algebra::node::Node;
use comparing::compare::compare;
use comparing::comparison::Comparison;
use kinds::kind::Kind;
use nodes::span::Span;
use normal_file::write::write_normal_from;
use refusals::refusal::Refusal;

impl<'a, K: Kind> Rack<'a, K> {
    // Compares the scores at two places: same, both lengths where they differ, or the least placed primitive whose counts differ.
    pub fn compare(&self, first: u32, second: u32) -> Result<Comparison, Refusal>
        ensures answer { result ≡ compare_answer K.Kind.model self.now first second }
        ensures same { IfOk result (λ c. (c ≡ Same) ↔ Chain K.Kind.model (score_held self.now first) (score_held self.now second)) }
        ensures only { IfOk result (OnlyAnswer K.Kind.model (score_held self.now first) (score_held self.now second)) }
    {
        self.known(first)?;
        self.known(second)?;
        let one = self.held(first)?;
        let other = self.held(second)?;
        Ok(compare_held(&one, &other))
    }

    // Writes the file of the normal form of the score at a place, after the model at another, from the start of the buffer, and returns how many bytes it has.
    pub fn write_normal(&self, place: u32, model: u32, buffer: &mut [u8]) -> Result<u32, Refusal>
        ensures answer { result ≡ write_normal_answer K.Kind.model self.now place model (length buffer.old) }
        ensures after { buffer.new ≡ written_over result (normal_bytes_at K.Kind.model self.now place model) buffer.old }
        ensures decides { OnOk result (BytesDecide K.Kind.model (score_held self.now place) (score_held self.now model)) }
    {
        self.known(place)?;
        self.known(model)?;
        let own = self.held(place)?;
        let other = self.held(model)?;
        write_normal_held(&*self.nodes, &own, &other, buffer)
    }
}

// For how many nodes tables are made where no score has more: to blank tables for 1,023 costs more than to compare a few nodes.
const FEW: usize = 64;

// Compares two held scores.
fn compare_held<K: Kind>(first: &Held<'_, K>, second: &Held<'_, K>) -> Comparison
    ensures { result ≡ said (compared K.Kind.model (standing_score K.Kind.numbers_of first.now.nodes.now) (standing_score K.Kind.numbers_of second.now.nodes.now)) }
{
    if first.nodes.len() <= FEW && second.nodes.len() <= FEW {
        compare_within::<K, FEW>(first, second)
    } else {
        compare_within::<K, MOST_NODES>(first, second)
    }
}

// The same with tables for so many nodes. They stand apart from the checks, so that a refusal costs nothing for them.
#[inline(never)]
fn compare_within<K: Kind, const N: usize>(first: &Held<'_, K>, second: &Held<'_, K>) -> Comparison
    requires first { length first.now.nodes.now ≤ N }
    requires second { length second.now.nodes.now ≤ N }
    requires small { N ≤ 1023 }
    ensures { result ≡ said (compared K.Kind.model (standing_score K.Kind.numbers_of first.now.nodes.now) (standing_score K.Kind.numbers_of second.now.nodes.now)) }
{
    let mut spans = [Span::default(); N];
    let mut second_spans = [Span::default(); N];
    compare(&first.score(&mut spans), &second.score(&mut second_spans))
}

// Writes the file of the normal form of a held score after another, by way of room for as many nodes as a place has.
fn write_normal_held<K: Kind>(
    nodes: &[Node<K>],
    score: &Held<'_, K>,
    model: &Held<'_, K>,
    buffer: &mut [u8],
) -> Result<u32, Refusal>
    requires { 1023 ≤ length nodes.now }
    ensures answer { result ≡ written_answer (normal_bytes K.Kind.model (standing_score K.Kind.numbers_of score.now.nodes.now) (standing_score K.Kind.numbers_of model.now.nodes.now)) (length buffer.old) }
    ensures after { buffer.new ≡ written_over result (normal_bytes K.Kind.model (standing_score K.Kind.numbers_of score.now.nodes.now) (standing_score K.Kind.numbers_of model.now.nodes.now)) buffer.old }
{
    if score.nodes.len() <= FEW && model.nodes.len() <= FEW {
        write_normal_within::<K, FEW>(nodes, score, model, buffer)
    } else {
        write_normal_within::<K, MOST_NODES>(nodes, score, model, buffer)
    }
}

// The same with tables for so many nodes.
#[inline(never)]
fn write_normal_within<K: Kind, const N: usize>(
    nodes: &[Node<K>],
    score: &Held<'_, K>,
    model: &Held<'_, K>,
    buffer: &mut [u8],
) -> Result<u32, Refusal>
    requires wide { 1023 ≤ length nodes.now }
    requires score { length score.now.nodes.now ≤ N }
    requires model { length model.now.nodes.now ≤ N }
    requires small { N ≤ 1023 }
    ensures answer { result ≡ written_answer (normal_bytes K.Kind.model (standing_score K.Kind.numbers_of score.now.nodes.now) (standing_score K.Kind.numbers_of model.now.nodes.now)) (length buffer.old) }
    ensures after { buffer.new ≡ written_over result (normal_bytes K.Kind.model (standing_score K.Kind.numbers_of score.now.nodes.now) (standing_score K.Kind.numbers_of model.now.nodes.now)) buffer.old }
{
    let mut spans = [Span::default(); N];
    let mut model_spans = [Span::default(); N];
    write_normal_from(
        nodes,
        &score.score(&mut spans),
        &model.score(&mut model_spans),
        buffer,
    )
}
