// The one shared access of a party's next turn, by its record alone. The region is not touched.
#![tactic(auto)]

ghost use Rattle.std.specs.Prelude.{◌≡◌};
ghost use Rattle.rules.specs.Next.{slot_access, next_spec};

use header::Header;
use types::{Access, Bell, Mark, Party, Side, Step};
use words::Wraps;

// How many a wake wakes.
pub const ONE: u32 = 1;

pub const ALL: u32 = 2_147_483_647;

// A push writes its slot, a pop reads it.
pub fn slot_access(side: Side, counter: u64) -> Access
    ensures { result ≡ slot_access side counter }
{
    match side {
        Side::Sender => Access::WriteSlot(counter),
        Side::Recorder => Access::ReadSlot(counter),
    }
}

// P6 and C6 wake one; close, shutdown and corruption wake all. A row for each step, or for steps that touch the same, as
// `next_at` has them.
#[tactic(auto, unfolding(rules::specs::Next::next_spec))]
pub fn next(p: Party) -> Access
    ensures { result ≡ next_spec p }
{
    let side = p.own.side;
    let them = sides::other(side);
    let ring = sides::ring_bell(side);
    let sleep = sides::sleep_bell(side);
    match p.step {
        Step::Rest | Step::Asleep => Access::None,
        Step::Look | Step::Check(..) | Step::Spin(_) | Step::Again(_) | Step::LastLook(_) => {
            Access::LoadCounter(them)
        }
        Step::Copy => slot_access(side, p.counter),
        Step::Publish(..) => Access::StoreCounter(side, p.counter.next()),
        Step::Raise(..) | Step::CloseRaise => Access::RaiseBell(ring),
        Step::Wake(..) => Access::WakeBell(ring, ONE),
        Step::Gate | Step::GateAgain(_) => Access::LoadFlags,
        Step::Epoch => Access::LoadBell(sleep),
        Step::Wait(epoch) => Access::WaitBell(sleep, epoch),
        Step::CloseSet => Access::SetFlag(Header::close_mark(side)),
        Step::CloseWake => Access::WakeBell(ring, ALL),
        Step::ShutSet(_) => Access::SetFlag(Mark::Shutdown),
        Step::ShutRaiseNe(_) => Access::RaiseBell(Bell::NotEmpty),
        Step::ShutWakeNe(_) => Access::WakeBell(Bell::NotEmpty, ALL),
        Step::ShutRaiseNf(..) => Access::RaiseBell(Bell::NotFull),
        Step::ShutWakeNf(..) => Access::WakeBell(Bell::NotFull, ALL),
    }
}
