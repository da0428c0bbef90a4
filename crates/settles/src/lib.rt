// What an event that is no turn makes of both parties: a begin, a spurious return, a time-out.
#![tactic(auto)]

ghost use Rattle.std.specs.Prelude.{◌≡◌};
ghost use Rattle.rules.specs.Calls.{push_spec, pop_spec, close_spec, shut_spec, spurious_spec, timeout_spec};
ghost use Rattle.rules.specs.Bench.{party_of, settled};

use types::{Bench, Party, Played, Reply, Side};

// An event comes to one party, which takes its seat again as the reply has it.
fn settle<F: FnOnce(Party) -> Reply>(b: Bench, side: Side, event: F) -> Played
    requires { F.pre event (party_of b side) }
    ensures { (r : Reply) × F.post event (party_of b side) r × (result ≡ settled b side r) }
{
    seats::settled(b, side, event(seats::party_of(b, side)))
}

// The six are its calls, an event each, with the promise of each.
pub fn spurious(b: Bench, side: Side) -> Played
    ensures { result ≡ settled b side (spurious_spec side (party_of b side)) }
{
    settle(b, side, |p| calls::spurious(side, p))
}

pub fn time_out(b: Bench, side: Side) -> Played
    ensures { result ≡ settled b side (timeout_spec side (party_of b side)) }
{
    settle(b, side, |p| calls::time_out(side, p))
}

pub fn push(b: Bench, blocking: bool, tag: u16, length: u32) -> Played
    ensures { result ≡ settled b Side.Sender (push_spec b.sender blocking tag length) }
{
    settle(
        b,
        Side::Sender,
        |p| calls::begin_push(p, blocking, tag, length),
    )
}

pub fn pop(b: Bench, blocking: bool, length: u32) -> Played
    ensures { result ≡ settled b Side.Recorder (pop_spec b.recorder blocking length) }
{
    settle(b, Side::Recorder, |p| calls::begin_pop(p, blocking, length))
}

pub fn close(b: Bench, side: Side) -> Played
    ensures { result ≡ settled b side (close_spec side (party_of b side)) }
{
    settle(b, side, |p| calls::begin_close(side, p))
}

pub fn shutdown(b: Bench, side: Side) -> Played
    ensures { result ≡ settled b side (shut_spec side (party_of b side)) }
{
    settle(b, side, |p| calls::begin_shutdown(side, p))
}
