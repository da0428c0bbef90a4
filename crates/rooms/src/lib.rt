// What the counters say to a side. Capacity and counters stand one by one, as in the definitions: a party has them in two
// places.
#![tactic(auto)]

ghost use Rattle.std.specs.Prelude.{◌≡◌};
ghost use Rattle.rules.specs.Looks.{room_with, room_of, was_blocked};

use types::{Room, Side};
use words::Wraps;

pub fn room_with(count: u64, capacity: u64, blocked: u64) -> Room
    ensures { result ≡ room_with count capacity blocked }
{
    if capacity < count {
        Room::Corrupt
    } else if count == blocked {
        Room::Blocked
    } else {
        Room::Free
    }
}

// P1, C1, B3 and W3: the other side's counter.
#[tactic(auto, unfolding(rules::specs::Looks::room_of))]
pub fn room_of(side: Side, capacity: u64, own: u64, their: u64) -> Room
    ensures { result ≡ room_of side capacity own their }
{
    let count = sides::used(side, own, their);
    room_with(count, capacity, sides::limit(side, capacity))
}

// P4 and C4: whether the other side was blocked before the own counter moved on.
#[tactic(auto, unfolding(rules::specs::Looks::was_blocked))]
pub fn was_blocked(side: Side, capacity: u64, own: u64, their: u64) -> bool
    ensures { result ≡ was_blocked side capacity own their }
{
    let old = own.ahead_of(1);
    match side {
        Side::Sender => their == old,
        Side::Recorder => their.ahead_of(old) == capacity,
    }
}
