// A slot of the ring, read: a part of the region that starts in its middle. It is cut out here, by place and size, and
// handed on to the slot's reader, which takes the slice.
#![tactic(auto)]

ghost use Rattle.std.specs.Prelude.{◌≡◌, ◌+◌, ◌≤◌, length};
ghost use Rattle.words.specs.Bytes.{part};
ghost use Rattle.layout.specs.Limits.{slot_head_bytes};
ghost use Rattle.layout.specs.Slots.{head_word, head_of, buffer_put};

use types::SlotHead;
use words::Word;

// Where the fields of a slot lie, from its start on.
#[derive(Clone, Copy)]
pub struct Slot {}

impl Slot {
    pub const LENGTH: usize = 0;

    pub const TAG: usize = 2;

    pub const FLAGS: usize = 4;

    pub const ZERO: usize = 6;

    pub const PAYLOAD: usize = 8;
}

// The whole header as one word.
pub fn read_head(slot: &[u8]) -> u64
    requires { slot_head_bytes ≤ length slot.now }
    ensures { result ≡ head_word slot.now }
{
    u64::load(slot, 0)
}

// The header of the slot of size bytes at at.
pub fn head_at(region: &[u8], at: usize, size: usize) -> u64
    requires { (slot_head_bytes ≤ size) × (at + size ≤ length region.now) }
    ensures { result ≡ head_word (part region.now at size) }
{
    read_head(&region[at..at + size])
}

// Length, tag, slot flags and zero word of a header. No `From`: it would have to stand in `types`, below `head_of`.
pub fn head_of(word: u64) -> SlotHead
    ensures { result ≡ head_of word }
{
    let bytes = word.to_le_bytes();
    SlotHead {
        length: u16::load(&bytes, Slot::LENGTH),
        tag: u16::load(&bytes, Slot::TAG),
        flags: u16::load(&bytes, Slot::FLAGS),
        zero: u16::load(&bytes, Slot::ZERO),
    }
}

// Copies the first count bytes of the payload to the buffer's start.
#[tactic(auto, unfolding(layout::specs::Slots::buffer_put))]
pub fn read_payload(slot: &[u8], count: usize, buffer: &mut [u8])
    requires { (slot_head_bytes + count ≤ length slot.now) × (count ≤ length buffer.old) }
    ensures { buffer.new ≡ buffer_put buffer.old slot.now count }
{
    runs::copy_out(slot, Slot::PAYLOAD, count, buffer);
}

// The same of the slot of size bytes at at.
pub fn payload_at(region: &[u8], at: usize, size: usize, count: usize, buffer: &mut [u8])
    requires { (slot_head_bytes + count ≤ size) × (at + size ≤ length region.now) × (count ≤ length buffer.old) }
    ensures { buffer.new ≡ buffer_put buffer.old (part region.now at size) count }
{
    read_payload(&region[at..at + size], count, buffer);
}
