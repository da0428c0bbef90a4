// Where a turn of a wait, a close or a shutdown leads, a function a step.
#![tactic(auto)]

ghost use Rattle.std.specs.Prelude.{◌≡◌};
ghost use Rattle.rules.specs.Steps.{left_move, door_move, gate_move, to_spin, spin_move, again_move, nap_move, wait_move, last_move, close_move, shut_move};

use types::{Answer, Bell, Door, Move, Nap, Own, Party, Side, Step};

// Where the other has closed, a recorder looks once more: the last note may have come before the close.
fn left_move(side: Side) -> Move
    ensures { result ≡ left_move side }
{
    match side {
        Side::Sender => Move::End(Answer::Closed),
        Side::Recorder => Move::To(Step::LastLook(false)),
    }
}

// An open door leads onward.
fn door_move(door: Door, side: Side, onward: Step) -> Move
    ensures { result ≡ door_move door side onward }
{
    match door {
        Door::Shut => Move::End(Answer::Shutdown),
        Door::Left => left_move(side),
        Door::Open => Move::To(onward),
    }
}

// B1, W1, B4 and W4.
#[tactic(auto, unfolding(rules::specs::Steps::gate_move))]
pub fn gate_move(own: Own, flags: u64, onward: Step) -> Move
    ensures { result ≡ gate_move own flags onward }
{
    door_move(looks::door_of(own.side, flags), own.side, onward)
}

// So many spins are left before B2 and W2. A spin carries how many follow it.
#[tactic(auto, unfolding(rules::specs::Steps::to_spin))]
pub fn to_spin(spins: u16) -> Step
    ensures { result ≡ to_spin spins }
{
    match spins {
        0 => Step::Epoch,
        _ => Step::Spin(spins - 1),
    }
}

// A spin looks as P1 and C1 do, and spins on over no room. This, the next and the last look are `room_move` with a way of
// their own, as the definitions have them.
#[tactic(auto, unfolding(rules::specs::Steps::spin_move))]
pub fn spin_move(p: Party, their: u64, spins: u16) -> Move
    ensures { result ≡ spin_move p.own p.counter their spins }
{
    steps::room_move(steps::room_here(p, their), Move::To(to_spin(spins)))
}

// B3 and W3.
#[tactic(auto, unfolding(rules::specs::Steps::again_move))]
pub fn again_move(p: Party, their: u64, epoch: u32) -> Move
    ensures { result ≡ again_move p.own p.counter their epoch }
{
    steps::room_move(steps::room_here(p, their), Move::To(Step::GateAgain(epoch)))
}

pub fn nap_move(nap: Nap, operation: u8, error: u16) -> Move
    ensures { result ≡ nap_move nap operation error }
{
    match nap {
        Nap::Sleeps => Move::To(Step::Asleep),
        Nap::Returns => Move::To(Step::Look),
        Nap::TimedOut => Move::To(Step::LastLook(true)),
        Nap::Fails => Move::End(Answer::Syscall(operation, error)),
    }
}

// B5 and W5.
#[tactic(auto, unfolding(rules::specs::Steps::wait_move))]
pub fn wait_move(own: Own, word: u64, error: u16, epoch: u32) -> Move
    ensures { result ≡ wait_move own word error epoch }
{
    let nap = looks::nap_of(error, word == u64::from(epoch));
    let operation = sides::wait_op(sides::sleep_bell(own.side));
    nap_move(nap, operation, error)
}

// B6 and W6: a time-out is answered, or the other's close, over no room alone.
#[tactic(auto, unfolding(rules::specs::Steps::last_move))]
pub fn last_move(p: Party, their: u64, timed: bool) -> Move
    ensures { result ≡ last_move p.own p.counter their timed }
{
    let answer = if timed {
        Answer::Timeout
    } else {
        Answer::Closed
    };
    steps::room_move(steps::room_here(p, their), Move::End(answer))
}

// A close's first turn.
#[tactic(auto, unfolding(rules::specs::Steps::close_move))]
pub fn close_move(own: Own) -> Move
    ensures { result ≡ close_move own }
{
    let rings = sides::rings(own.side, own.notfull);
    steps::goes_or_ends(rings, Step::CloseRaise, Answer::Done(0, 0))
}

// A shutdown's last turn: the first failure of its two wakes. Corruption ignores both and answers 7.
#[tactic(auto, unfolding(rules::specs::Steps::shut_move))]
pub fn shut_move(corrupt: bool, first: u16, error: u16) -> Move
    ensures { result ≡ shut_move corrupt first error }
{
    let later = steps::unless_failed(error, sides::wake_op(Bell::NotFull), Answer::Done(0, 0));
    let either = steps::unless_failed(first, sides::wake_op(Bell::NotEmpty), later);
    if corrupt {
        Move::End(Answer::CorruptIndices)
    } else {
        Move::End(either)
    }
}
