// The slot of a counter, copied in and out. A party goes by its own sizes and never by the region's.
#![tactic(auto)]

ghost use Rattle.std.specs.Prelude.{◌≡◌, true, ◌≤◌, length};
ghost use Rattle.layout.specs.Limits.{power_ok, payload_capacity};
ghost use Rattle.layout.specs.Slots.{head_word, slot_put};
ghost use Rattle.rules.specs.Access.{place_of, slot_of, read_out};
ghost use Rattle.copies.specs.Sized.{Sized};

use types::{Fit, Own};

// Where the slot of a counter begins.
fn place(own: Own, count: u64) -> usize
    requires { power_ok own.power ≡ true }
    ensures { result ≡ place_of own count }
{
    sizes::slot_at(own.power, own.slot, count)
}

// A push's copy into the slot of a counter.
pub fn write_slot(region: &mut [u8], own: Own, count: u64, tag: u16, payload: &[u8])
    requires { Sized own (length region.old) × (length payload.now ≤ payload_capacity own.slot) }
    ensures { region.new ≡ slot_put region.old (place_of own count) tag payload.now }
{
    let at = place(own, count);
    fills::write_at(region, at, own.slot as usize, tag, payload);
}

// A pop's copy out of the slot of a counter: its header as one word, and the payload where it fits.
pub fn read_slot(region: &[u8], own: Own, count: u64, named: u32, buffer: &mut [u8]) -> u64
    requires { Sized own (length region.now) × (named ≤ length buffer.old) }
    ensures value { result ≡ head_word (slot_of region.now own count) }
    ensures given { buffer.new ≡ read_out named (payload_capacity own.slot) buffer.old (slot_of region.now own count) }
{
    let at = place(own, count);
    let size = own.slot as usize;
    let word = slots::head_at(region, at, size);
    let head = slots::head_of(word);
    let most = sizes::payload_capacity(own.slot);
    if let Fit::Fits = looks::fit_of(head, most, named) {
        slots::payload_at(region, at, size, usize::from(head.length), buffer);
    }
    word
}
