// What differs by the side. Each is a table of two rows, and the whole difference between the two parties.
#![tactic(auto)]

ghost use Rattle.std.specs.Prelude.{◌≡◌};
ghost use Rattle.rules.specs.Sides.{other, used, limit, blocked_answer, ring_bell, sleep_bell, rings, wait_op, wake_op};

use types::{Answer, Bell, Side};
use words::Wraps;

pub fn other(side: Side) -> Side
    ensures { result ≡ other side }
{
    match side {
        Side::Sender => Side::Recorder,
        Side::Recorder => Side::Sender,
    }
}

// Head less tail, which wraps. The sender's own counter is head, the recorder's is tail.
pub fn used(side: Side, own: u64, their: u64) -> u64
    ensures { result ≡ used side own their }
{
    match side {
        Side::Sender => own.ahead_of(their),
        Side::Recorder => their.ahead_of(own),
    }
}

// With so many used a side can do nothing.
pub fn limit(side: Side, capacity: u64) -> u64
    ensures { result ≡ limit side capacity }
{
    match side {
        Side::Sender => capacity,
        Side::Recorder => 0,
    }
}

pub fn blocked_answer(side: Side) -> Answer
    ensures { result ≡ blocked_answer side }
{
    match side {
        Side::Sender => Answer::Full,
        Side::Recorder => Answer::Empty,
    }
}

// The bell that a side raises for the other.
pub fn ring_bell(side: Side) -> Bell
    ensures { result ≡ ring_bell side }
{
    match side {
        Side::Sender => Bell::NotEmpty,
        Side::Recorder => Bell::NotFull,
    }
}

// The bell that a side sleeps on, which the other raises.
pub fn sleep_bell(side: Side) -> Bell
    ensures { result ≡ sleep_bell side }
{
    ring_bell(other(side))
}

pub fn rings(side: Side, notfull: bool) -> bool
    ensures { result ≡ rings side notfull }
{
    match side {
        Side::Sender => true,
        Side::Recorder => notfull,
    }
}

// The operations of a wait and of a wake, as 17 tells them.
pub fn wait_op(bell: Bell) -> u8
    ensures { result ≡ wait_op bell }
{
    match bell {
        Bell::NotEmpty => 0,
        Bell::NotFull => 2,
    }
}

pub fn wake_op(bell: Bell) -> u8
    ensures { result ≡ wake_op bell }
{
    match bell {
        Bell::NotEmpty => 1,
        Bell::NotFull => 3,
    }
}
