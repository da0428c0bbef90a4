// What becomes of a party when its turn's one access gave back a value, or was announced to fail. The region is not touched.
#![tactic(auto)]

ghost use Rattle.std.specs.Prelude.{◌≡◌};
ghost use Rattle.rules.specs.Take.{step_after, answer_of, counter_after, closed_after, take_spec};

use types::{Answer, Move, Party, Reply, Stance, Step};
use words::Wraps;

pub fn step_after(moved: Move, step: Step) -> Step
    ensures { result ≡ step_after moved step }
{
    match moved {
        Move::Still => step,
        Move::To(onward) => onward,
        Move::End(_) => Step::Rest,
    }
}

pub fn answer_of(moved: Move) -> Answer
    ensures { result ≡ answer_of moved }
{
    match moved {
        Move::Still => Answer::Nothing,
        Move::To(_) => Answer::GoesOn,
        Move::End(answer) => answer,
    }
}

// P3 and C3 advance the own counter, which wraps.
pub fn counter_after(stance: Stance, counter: u64) -> u64
    ensures { result ≡ counter_after stance counter }
{
    if stance == Stance::Publishing {
        counter.next()
    } else {
        counter
    }
}

// One's own close counts from the turn that sets its bit.
pub fn closed_after(stance: Stance, closed: bool) -> bool
    ensures { result ≡ closed_after stance closed }
{
    closed || stance == Stance::Closing
}

// The error is a number, 0 for none, as document 01 has it and as the step of a shutdown keeps it; whatever is given is taken.
#[tactic(auto, unfolding(rules::specs::Take::take_spec, rules::specs::Take::move_of))]
pub fn take(p: Party, value: u64, error: u16) -> Reply
    ensures { result ≡ take_spec p value error }
{
    let moved = moves::move_at(p, value, error);
    let stance = sound::stance_of(p.step);
    let party = Party {
        closed: closed_after(stance, p.closed),
        counter: counter_after(stance, p.counter),
        step: step_after(moved, p.step),
        ..p
    };
    Reply {
        party,
        answer: answer_of(moved),
    }
}
