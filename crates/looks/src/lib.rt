// What a value that a turn loaded says to a party.
#![tactic(auto)]

ghost use Rattle.std.specs.Prelude.{◌≡◌};
ghost use Rattle.rules.specs.Looks.{door_of, head_bad, fit_of, nap_of};

use header::Header;
use types::{Door, Fit, Mark, Nap, Side, SlotHead};

// B1, W1, B4 and W4. A turn hands the flags on as 64 bits, of which they are the lowest 32.
#[tactic(auto, unfolding(rules::specs::Looks::door_of))]
pub fn door_of(side: Side, flags: u64) -> Door
    ensures { result ≡ door_of side flags }
{
    let word = (flags % 0x1_0000_0000) as u32;
    let mark = Header::close_mark(sides::other(side));
    if Header::has(word, Mark::Shutdown) {
        Door::Shut
    } else if Header::has(word, mark) {
        Door::Left
    } else {
        Door::Open
    }
}

// C2's grounds of 8. Slot flag 0 may be set.
fn is_bad(head: SlotHead, most: u32) -> bool
    ensures { result ≡ head_bad head most }
{
    most < u32::from(head.length) || 0 < head.flags / 2 || 0 < head.zero
}

// C2: 8 before 15.
#[tactic(auto, unfolding(rules::specs::Looks::fit_of))]
pub fn fit_of(head: SlotHead, most: u32, buffer: u32) -> Fit
    ensures { result ≡ fit_of head most buffer }
{
    if is_bad(head, most) {
        Fit::Bad
    } else if buffer < u32::from(head.length) {
        Fit::Small
    } else {
        Fit::Fits
    }
}

// The errors of a wait that are told apart. They stay the kernel's numbers, as the definitions, a step and 17 have them.
#[derive(Clone, Copy)]
pub struct Error {}

impl Error {
    pub const NONE: u16 = 0;

    pub const INTERRUPTED: u16 = 4;

    pub const AGAIN: u16 = 11;

    pub const TIMED_OUT: u16 = 110;
}

// B5 and W5: the announced error, and whether the bell still reads the epoch.
#[tactic(auto, unfolding(rules::specs::Looks::nap_of))]
pub fn nap_of(error: u16, same: bool) -> Nap
    ensures { result ≡ nap_of error same }
{
    match error {
        Error::NONE if same => Nap::Sleeps,
        Error::NONE | Error::INTERRUPTED | Error::AGAIN => Nap::Returns,
        Error::TIMED_OUT => Nap::TimedOut,
        _ => Nap::Fails,
    }
}
