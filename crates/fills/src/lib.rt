// A slot of the ring, filled: a part of the region that starts in its middle, cut out here by place and size.
#![tactic(auto)]

ghost use Rattle.std.specs.Prelude.{◌≡◌, ◌+◌, ◌^◌, ◌<◌, ◌≤◌, length};
ghost use Rattle.layout.specs.Limits.{slot_head_bytes};
ghost use Rattle.layout.specs.Slots.{slot_put};

use slots::Slot;
use words::Word;

// Writes a slot: nothing behind the payload.
pub fn write(slot: &mut [u8], tag: u16, payload: &[u8])
    requires { (slot_head_bytes + length payload.now ≤ length slot.old) × (length payload.now < 2 ^ 16) }
    ensures { slot.new ≡ slot_put slot.old 0 tag payload.now }
{
    (payload.len() as u16).store(slot, Slot::LENGTH);
    tag.store(slot, Slot::TAG);
    0u16.store(slot, Slot::FLAGS);
    0u16.store(slot, Slot::ZERO);
    runs::copy_in(slot, Slot::PAYLOAD, payload);
}

// The same of the slot of size bytes at at.
pub fn write_at(region: &mut [u8], at: usize, size: usize, tag: u16, payload: &[u8])
    requires { (slot_head_bytes + length payload.now ≤ size) × (length payload.now < 2 ^ 16) × (at + size ≤ length region.old) }
    ensures { region.new ≡ slot_put region.old at tag payload.now }
{
    write(&mut region[at..at + size], tag, payload);
}
