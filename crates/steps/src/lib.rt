// Where a turn of a push or a pop leads, a function a step. A party's own copy of sizes and options is `own`. The length
// and the tag of the note that a pop took go side by side, as a step and an answer have them.
#![tactic(auto)]

ghost use Rattle.std.specs.Prelude.{◌≡◌};
ghost use Rattle.types.specs.Pick.{pick};
ghost use Rattle.rules.specs.Looks.{room_here};
ghost use Rattle.rules.specs.Steps.{room_move, blocked_move, look_move, fit_move, copy_with, copy_move, publish_move, check_move, unless_failed, wake_move};

use looks::Error;
use types::{Answer, Fit, Move, Own, Party, Room, Side, SlotHead, Step};

// What the other side's counter says to a party.
pub fn room_here(p: Party, their: u64) -> Room
    ensures { result ≡ room_here p.own p.counter their }
{
    rooms::room_of(p.own.side, sizes::capacity(p.own.power), p.counter, their)
}

// Corruption begins a shutdown.
pub fn room_move(room: Room, blocked: Move) -> Move
    ensures { result ≡ room_move room blocked }
{
    match room {
        Room::Corrupt => Move::To(Step::ShutSet(true)),
        Room::Blocked => blocked,
        Room::Free => Move::To(Step::Copy),
    }
}

pub fn goes_or_ends(goes: bool, onward: Step, answer: Answer) -> Move
    ensures { result ≡ pick goes (Move.To onward) (Move.End answer) }
{
    if goes {
        Move::To(onward)
    } else {
        Move::End(answer)
    }
}

// Full or empty ends a try form.
pub fn blocked_move(blocking: bool, side: Side) -> Move
    ensures { result ≡ blocked_move blocking side }
{
    goes_or_ends(blocking, Step::Gate, sides::blocked_answer(side))
}

// P1 and C1.
#[tactic(auto, unfolding(rules::specs::Steps::look_move))]
pub fn look_move(p: Party, their: u64) -> Move
    ensures { result ≡ look_move p.own p.counter p.blocking their }
{
    room_move(room_here(p, their), blocked_move(p.blocking, p.own.side))
}

// C2: 8, then 15.
pub fn fit_move(fit: Fit, head: SlotHead) -> Move
    ensures { result ≡ fit_move fit head.length head.tag }
{
    match fit {
        Fit::Bad => Move::End(Answer::CorruptSlot),
        Fit::Small => Move::End(Answer::OutputTooSmall(head.length)),
        Fit::Fits => Move::To(Step::Publish(head.length, head.tag)),
    }
}

// A push carries no note on.
pub fn copy_with(side: Side, read: Move) -> Move
    ensures { result ≡ copy_with side read }
{
    match side {
        Side::Sender => Move::To(Step::Publish(0, 0)),
        Side::Recorder => read,
    }
}

// P2 and C2. The word is the slot's header, where a pop read one.
#[tactic(auto, unfolding(rules::specs::Steps::copy_move))]
pub fn copy_move(p: Party, word: u64) -> Move
    ensures { result ≡ copy_move p.own p.length word }
{
    let head = slots::head_of(word);
    let fit = looks::fit_of(head, sizes::payload_capacity(p.own.slot), p.length);
    copy_with(p.own.side, fit_move(fit, head))
}

// P3 and C3.
#[tactic(auto, unfolding(rules::specs::Steps::publish_move))]
pub fn publish_move(own: Own, length: u16, tag: u16) -> Move
    ensures { result ≡ publish_move own length tag }
{
    let rings = sides::rings(own.side, own.notfull);
    goes_or_ends(rings, Step::Check(length, tag), Answer::Done(length, tag))
}

// P4 and C4.
#[tactic(auto, unfolding(rules::specs::Steps::check_move))]
pub fn check_move(p: Party, their: u64, length: u16, tag: u16) -> Move
    ensures { result ≡ check_move p.own p.counter their length tag }
{
    let capacity = sizes::capacity(p.own.power);
    let blocked = rooms::was_blocked(p.own.side, capacity, p.counter, their);
    goes_or_ends(blocked, Step::Raise(length, tag), Answer::Done(length, tag))
}

// A futex call that failed answers 17, with the operation's number.
pub fn unless_failed(error: u16, operation: u8, answer: Answer) -> Answer
    ensures { result ≡ unless_failed error operation answer }
{
    if error == Error::NONE {
        answer
    } else {
        Answer::Syscall(operation, error)
    }
}

// P6 and C6, and a close's last turn.
#[tactic(auto, unfolding(rules::specs::Steps::wake_move))]
pub fn wake_move(own: Own, error: u16, length: u16, tag: u16) -> Move
    ensures { result ≡ wake_move own error length tag }
{
    let operation = sides::wake_op(sides::ring_bell(own.side));
    Move::End(unless_failed(error, operation, Answer::Done(length, tag)))
}
