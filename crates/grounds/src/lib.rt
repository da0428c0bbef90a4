// The grounds on which a turn is refused before it is played.
#![tactic(auto, unfolding(rules::specs::Turn::goes))]

ghost use Rattle.std.specs.Prelude.{◌≡◌};
ghost use Rattle.rules.specs.Turn.{error_of, lent_to, lent_ok, goes};
ghost use Rattle.rules.specs.Take.{stance_of};

use types::{Fault, Party, Side, Stance};

// The error as a turn takes it, and as the step of a shutdown keeps it: 0 for none.
pub fn error_of(fault: Fault) -> u16
    ensures { result ≡ error_of fault }
{
    fault.unwrap_or(0)
}

// What is lent matters at a copy alone, and there the side's own: a push's payload, a pop's buffer.
fn lent_as_named(side: Side, p: Party, payload: usize, buffer: usize) -> bool
    ensures { result ≡ lent_ok (stance_of p.step) (lent_to side payload buffer) p.length }
{
    let lent = match side {
        Side::Sender => payload,
        Side::Recorder => buffer,
    };
    sound::stance_of(p.step) != Stance::Copying || lent == p.length as usize
}

// 20's grounds at a turn. The lengths are those of the region, the payload and the buffer that the turn is lent; no error
// may be announced as 0.
pub fn goes(
    side: Side,
    p: Party,
    region: usize,
    payload: usize,
    buffer: usize,
    fault: Fault,
) -> bool
    ensures { result ≡ goes side p region payload buffer fault }
{
    sound::sound(side, p)
        && region as u64 == sizes::total_bytes(p.own.power, p.own.slot)
        && lent_as_named(side, p, payload, buffer)
        && fault != Some(0)
}
