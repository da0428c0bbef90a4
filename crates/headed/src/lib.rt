// A whole header, written over whatever was there.
#![tactic(auto)]

ghost use Rattle.std.specs.Prelude.{◌≡◌, ◌+◌, ◌^◌, ◌<◌, ◌≤◌, length};
ghost use Rattle.layout.specs.Limits.{header_bytes};
ghost use Rattle.layout.specs.Header.{headed};

use header::Header;
use sizes::Limits;
use words::Word;

// Zeros over the header, then the magic and every field: version, sizes, the ring's sizes and the flags, pids and error
// code, counters, bells. What is given stands one by one, as in the definition.
#[tactic(auto, unfolding(layout::specs::Header::headed, layout::specs::Header::blank))]
pub fn write_header(region: &mut [u8], ring: u64, power: u8, slot: u32, flags: u32, start: u64)
    requires { (header_bytes ≤ length region.old) × (header_bytes + ring < 2 ^ 64) }
    ensures { region.new ≡ headed region.old ring power slot flags start }
{
    runs::clear(region, Header::BYTES);
    runs::copy_in(region, 0, &Header::MAGIC);
    0u16.store(region, Header::MAJOR);
    1u16.store(region, Header::MINOR);
    (Header::BYTES as u32).store(region, Header::HEADER_SIZE);
    (Limits::HEADER_BYTES + ring).store(region, Header::TOTAL_SIZE);
    Limits::HEADER_BYTES.store(region, Header::RING_OFFSET);
    ring.store(region, Header::RING_BYTES);
    0u64.store(region, Header::ARENA_OFFSET);
    0u64.store(region, Header::ARENA_BYTES);
    power.store(region, Header::POWER);
    slot.store(region, Header::SLOT_SIZE);
    flags.store(region, Header::FLAGS);
    0u32.store(region, Header::SENDER_PID);
    0u32.store(region, Header::RECORDER_PID);
    0u32.store(region, Header::ERROR_CODE);
    start.store(region, Header::HEAD);
    start.store(region, Header::TAIL);
    0u32.store(region, Header::NOT_EMPTY);
    0u32.store(region, Header::NOT_FULL);
}
