// Calls made one after the other, and the ledger that is kept of them.
ghost use Rattle.std.specs.Prelude.{◌≡◌, length, drop, replicate, None};
ghost use Rattle.rack.specs.Places.{number};
ghost use Rattle.rack.specs.Calls.{LoadedAt};
ghost use Rattle.ledger.specs.Certificates.{Certificate, Continued};
ghost use Rattle.ledger.specs.Runs.{state_of, renderer_at, Did, Ran};

use crate::call::{Call, Reply};
use algebra::node::Node;
use kinds::kind::Kind;
use rack::rack::Rack;
use reading::states::FreshReading;
use refusals::refusal::Refusal;
use render::renderer::Renderer;

// Reads the head of a text, and loads what follows.
pub fn load<K: Kind>(rack: &mut Rack<'_, K>, to: u32, text: &[u8]) -> Result<(), Refusal>
    ensures { LoadedAt K.Kind.model text.now to rack.old rack.new result }
{
    let headed = FreshReading::new(text).read_head()?;
    rack.load(to, headed)
}

// The reply of a call that answers nothing more.
fn done(_nothing: ()) -> Reply
    ensures { result ≡ Reply.Done }
{
    Reply::Done
}

// Makes one call.
pub fn make_call<K: Kind, R: Renderer>(
    rack: &mut Rack<'_, K>,
    call: Call<'_>,
    buffer: &mut [u8],
    renderer: &mut R,
) -> Result<Reply, Refusal>
    ensures did { Did K.Kind.model (renderer_at R.Renderer.blank R.Renderer.entered (R.Renderer.settings_of renderer.old)) (state_of rack.old buffer.old (R.Renderer.picture_of renderer.old)) call.entry result (state_of rack.new buffer.new (R.Renderer.picture_of renderer.new)) }
    ensures settings { R.Renderer.settings_of renderer.new ≡ R.Renderer.settings_of renderer.old }
{
    match call {
        Call::Load { to, text } => load(rack, to, text).map(done),
        Call::Rest { to, ticks } => rack.rest(to, ticks).map(done),
        Call::JoinSequence { to, first, second } => rack.join_sequence(to, first, second).map(done),
        Call::JoinParallel { to, first, second } => rack.join_parallel(to, first, second).map(done),
        Call::Reverse { to, from } => rack.reverse(to, from).map(done),
        Call::Take { to, from, ticks } => rack.take(to, from, ticks).map(done),
        Call::Drop { to, from, ticks } => rack.drop(to, from, ticks).map(done),
        Call::Normalise { to, from } => rack.normalise(to, from).map(done),
        Call::Rewrite {
            place,
            node,
            rule,
            way,
            split,
        } => rack.rewrite(place, node, rule, way, split).map(done),
        Call::Clear { place } => rack.clear(place).map(done),
        Call::Tell { place } => rack.tell(place).map(|(length, nodes, primitives)| Reply::Told {
            length,
            nodes,
            primitives,
        }),
        Call::Compare { first, second } => rack.compare(first, second).map(Reply::Compared),
        Call::Write { place } => rack.write(place, buffer).map(Reply::Wrote),
        Call::WriteNormal { place, model } => {
            rack.write_normal(place, model, buffer).map(Reply::Wrote)
        }
        Call::Draw { place } => rack.draw(place, renderer).map(done),
    }
}

// Makes calls one after the other, as many as the row of answers has room for, and writes their answers into it.
pub fn play_on<K: Kind, R: Renderer>(
    rack: &mut Rack<'_, K>,
    calls: &[Call<'_>],
    answers: &mut [Result<Reply, Refusal>],
    buffer: &mut [u8],
    renderer: &mut R,
)
    ensures run { Ran K.Kind.model (renderer_at R.Renderer.blank R.Renderer.entered (R.Renderer.settings_of renderer.old)) (state_of rack.old buffer.old (R.Renderer.picture_of renderer.old)) calls.now answers.new (state_of rack.new buffer.new (R.Renderer.picture_of renderer.new)) }
    ensures others { drop (length calls.now) answers.new ≡ drop (length calls.now) answers.old }
    ensures settings { R.Renderer.settings_of renderer.new ≡ R.Renderer.settings_of renderer.old }
    ensures ledger { Continued K.Kind.model R.Renderer.blank R.Renderer.entered rack.old calls.now answers.new rack.new }
{
    // By index: of what is written through a zip of both, nothing is proved.
    for i in 0..calls.len().min(answers.len()) {
        answers[i] = make_call(rack, calls[i], buffer, renderer);
    }
}

// Makes a rack in the nodes that the caller brings, and makes calls on it, one after the other, as many as the row of answers has room for.
pub fn play<'a, K: Kind, R: Renderer>(
    nodes: &'a mut [Node<K>],
    calls: &[Call<'_>],
    answers: &mut [Result<Reply, Refusal>],
    buffer: &mut [u8],
    renderer: &mut R,
) -> Rack<'a, K>
    ensures run { Ran K.Kind.model (renderer_at R.Renderer.blank R.Renderer.entered (R.Renderer.settings_of renderer.old)) (state_of (replicate (number nodes.old) None) buffer.old (R.Renderer.picture_of renderer.old)) calls.now answers.new (state_of result buffer.new (R.Renderer.picture_of renderer.new)) }
    ensures others { drop (length calls.now) answers.new ≡ drop (length calls.now) answers.old }
    ensures settings { R.Renderer.settings_of renderer.new ≡ R.Renderer.settings_of renderer.old }
    ensures ledger { Certificate K.Kind.model R.Renderer.blank R.Renderer.entered (number nodes.old) calls.now answers.new result }
{
    let mut rack = Rack::new(nodes);
    play_on(&mut rack, calls, answers, buffer, renderer);
    rack
}
