// The tests of a party's record: 20's grounds that lie in it, whether a call runs, and whether the party sleeps.
#![tactic(auto, unfolding(rules::specs::Calls::sound, rules::specs::Calls::ready))]

ghost use Rattle.std.specs.Prelude.{◌≡◌};
ghost use Rattle.rules.specs.Calls.{is_sleeping, length_ok, sound, ready};
ghost use Rattle.rules.specs.Take.{stance_of};

use types::{Party, Side, Stance, Step};

pub fn stance_of(step: Step) -> Stance
    ensures { result ≡ stance_of step }
{
    match step {
        Step::Rest => Stance::Resting,
        Step::Asleep => Stance::Sleeping,
        Step::Copy => Stance::Copying,
        Step::Publish(_, _) => Stance::Publishing,
        Step::CloseSet => Stance::Closing,
        Step::Look
        | Step::Check(..)
        | Step::Raise(..)
        | Step::Wake(..)
        | Step::Gate
        | Step::Spin(_)
        | Step::Epoch
        | Step::Again(_)
        | Step::GateAgain(_)
        | Step::Wait(_)
        | Step::LastLook(_)
        | Step::CloseRaise
        | Step::CloseWake
        | Step::ShutSet(_)
        | Step::ShutRaiseNe(_)
        | Step::ShutWakeNe(_)
        | Step::ShutRaiseNf(..)
        | Step::ShutWakeNf(..) => Stance::Moving,
    }
}

// A push's length is tested; a pop may name any.
pub fn length_ok(side: Side, length: u32, slot: u32) -> bool
    ensures { result ≡ length_ok side length slot }
{
    match side {
        Side::Sender => length <= sizes::payload_capacity(slot),
        Side::Recorder => true,
    }
}

// 20's grounds that lie in the record. A record of the other side counts as one of a party not attached.
pub fn sound(side: Side, p: Party) -> bool
    ensures { result ≡ sound side p }
{
    p.own.attached
        && side == p.own.side
        && sizes::power_ok(p.own.power)
        && sizes::slot_ok(p.own.slot)
        && sizes::spins_ok(p.own.spins)
        && length_ok(side, p.length, p.own.slot)
}

// 20's grounds at a begin: those, and that a call runs.
pub fn ready(side: Side, p: Party) -> bool
    ensures { result ≡ ready side p }
{
    sound(side, p) && stance_of(p.step) == Stance::Resting
}

pub fn sleeps(p: Party) -> bool
    ensures { result ≡ is_sleeping (stance_of p.step) }
{
    stance_of(p.step) == Stance::Sleeping
}
