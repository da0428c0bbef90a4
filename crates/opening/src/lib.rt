// How a script begins: on a fresh region, with both parties attached, neither of which spins.
#![tactic(auto)]

ghost use Rattle.std.specs.Prelude.{◌≡◌};
ghost use Rattle.opening.specs.Night.{night_of, start};

use records::Record;
use types::{Bench, Side};

// The region that a script is played on: how many bytes it has, and its ring's sizes.
pub const REGION: usize = 512;

const POWER: u8 = 2;

const SLOT: u32 = 32;

// What a script's player keeps between two records: both parties, the running push's payload and the pop's buffer. The
// region is lent beside it, since one of any length may be lent to what plays a record; of a player that borrowed it each
// contract would have to say that it still holds the same one.
#[derive(Clone, Copy)]
pub struct Player {
    pub bench: Bench,
    pub payload: [u8; Record::PAYLOAD_BYTES],
    pub buffer: [u8; Record::PAYLOAD_BYTES],
}

// A fresh night: the region created, both parties attached, nothing pushed and nothing popped.
pub fn start(region: &mut [u8; REGION]) -> Player
    ensures { night_of region.new result ≡ start }
{
    *region = [0; REGION];
    // the sizes are within the limits, and fill the region: it is not refused
    let _ = create::create(region, POWER, SLOT, true, 0);
    let sender = attach::attach(region, Side::Sender, 0).party;
    let recorder = attach::attach(region, Side::Recorder, 0).party;
    Player {
        bench: Bench { sender, recorder },
        payload: [0; Record::PAYLOAD_BYTES],
        buffer: [0; Record::PAYLOAD_BYTES],
    }
}
