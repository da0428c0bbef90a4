// Where a turn leads, by its step.
#![tactic(auto)]

ghost use Rattle.std.specs.Prelude.{◌≡◌};
ghost use Rattle.rules.specs.Take.{move_at};

use types::{Move, Party, Step};

// Where the party's turn leads, a row a step as the definition has them. An error is announced where a futex call fails,
// and is 0 otherwise.
pub fn move_at(p: Party, value: u64, error: u16) -> Move
    ensures { result ≡ move_at p.step p.own p.counter p.blocking p.length value error }
{
    match p.step {
        Step::Rest | Step::Asleep => Move::Still,
        Step::Look => steps::look_move(p, value),
        Step::Copy => steps::copy_move(p, value),
        Step::Publish(length, tag) => steps::publish_move(p.own, length, tag),
        Step::Check(length, tag) => steps::check_move(p, value, length, tag),
        Step::Raise(length, tag) => Move::To(Step::Wake(length, tag)),
        Step::Wake(length, tag) => steps::wake_move(p.own, error, length, tag),
        Step::Gate => waits::gate_move(p.own, value, waits::to_spin(p.own.spins)),
        Step::Spin(left) => waits::spin_move(p, value, left),
        Step::Epoch => Move::To(Step::Again((value % 0x1_0000_0000) as u32)),
        Step::Again(epoch) => waits::again_move(p, value, epoch),
        Step::GateAgain(epoch) => waits::gate_move(p.own, value, Step::Wait(epoch)),
        Step::Wait(epoch) => waits::wait_move(p.own, value, error, epoch),
        Step::LastLook(timed) => waits::last_move(p, value, timed),
        Step::CloseSet => waits::close_move(p.own),
        Step::CloseRaise => Move::To(Step::CloseWake),
        Step::CloseWake => steps::wake_move(p.own, error, 0, 0),
        Step::ShutSet(corrupt) => Move::To(Step::ShutRaiseNe(corrupt)),
        Step::ShutRaiseNe(corrupt) => Move::To(Step::ShutWakeNe(corrupt)),
        Step::ShutWakeNe(corrupt) => Move::To(Step::ShutRaiseNf(corrupt, error)),
        Step::ShutRaiseNf(corrupt, first) => Move::To(Step::ShutWakeNf(corrupt, first)),
        Step::ShutWakeNf(corrupt, first) => waits::shut_move(corrupt, first, error),
    }
}
