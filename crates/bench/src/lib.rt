// Both parties and their sleeping places: what an event of a run makes of them, of the region and of the buffer.
#![tactic(auto, unfolding(rules::specs::Bench::played, rules::specs::Bench::played_leaves, rules::specs::Bench::played_buffer))]

ghost use Rattle.std.specs.Prelude.{◌≡◌};
ghost use Rattle.rules.specs.Turn.{turn_leaves, turn_buffer};
ghost use Rattle.rules.specs.Bench.{party_of, turn_played, played, played_leaves, played_buffer};

use types::{Bench, Event, Fault, Played, Side};

fn turn(
    region: &mut [u8],
    b: Bench,
    side: Side,
    payload: &[u8],
    buffer: &mut [u8],
    fault: Fault,
) -> Played
    ensures value { result ≡ turn_played region.old b payload.now buffer.old side fault }
    ensures leaves { region.new ≡ turn_leaves side region.old (party_of b side) payload.now buffer.old fault }
    ensures given { buffer.new ≡ turn_buffer side region.old (party_of b side) payload.now buffer.old fault }
{
    let p = seats::party_of(b, side);
    let t = turns::turn(side, region, p, payload, buffer, fault);
    seats::turned(b, side, t)
}

// One event: a row each, as `played` has them. The payload and the buffer are lent to its turn, and no other event touches
// them.
pub fn play(region: &mut [u8], b: Bench, e: Event, payload: &[u8], buffer: &mut [u8]) -> Played
    ensures value { result ≡ played region.old b payload.now buffer.old e }
    ensures leaves { region.new ≡ played_leaves region.old b payload.now buffer.old e }
    ensures given { buffer.new ≡ played_buffer region.old b payload.now buffer.old e }
{
    match e {
        Event::Turn(side) => turn(region, b, side, payload, buffer, None),
        Event::Failing(side, error) => turn(region, b, side, payload, buffer, Some(error)),
        Event::Spurious(side) => settles::spurious(b, side),
        Event::TimeOut(side) => settles::time_out(b, side),
        Event::Push(blocking, tag, length) => settles::push(b, blocking, tag, length),
        Event::Pop(blocking, length) => settles::pop(b, blocking, length),
        Event::Close(side) => settles::close(b, side),
        Event::Shutdown(side) => settles::shutdown(b, side),
    }
}
