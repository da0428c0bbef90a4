// The words of a header that a turn stores: a counter, a bell, a flag. Each asks that the region has room for a header,
// and no type keeps that fact for them: of bytes that are lent on in a struct no proof says what comes back at its end.
#![tactic(auto)]

ghost use Rattle.std.specs.Prelude.{◌≡◌, ◌≤◌, length};
ghost use Rattle.words.specs.Le.{le_at, put_le};
ghost use Rattle.words.specs.Wrap.{next};
ghost use Rattle.layout.specs.Limits.{header_bytes};
ghost use Rattle.layout.specs.Flags.{worth, set_bit};
ghost use Rattle.layout.specs.Header.{flags_at, counter_at, bell_at};

use header::Header;
use types::{Bell, Mark, Side};
use words::{Word, Wraps};

// Stores a side's own counter.
pub fn publish(region: &mut [u8], side: Side, n: u64)
    requires { header_bytes ≤ length region.old }
    ensures { region.new ≡ put_le 8 region.old (counter_at side) n }
{
    n.store(region, Header::counter_at(side));
}

// Adds 1 to a bell, which wraps.
pub fn raise(region: &mut [u8], b: Bell)
    requires { header_bytes ≤ length region.old }
    ensures { region.new ≡ put_le 4 region.old (bell_at b) (next 32 (le_at 4 region.old (bell_at b))) }
{
    let at = Header::bell_at(b);
    let epoch = Header::read::<u32>(region, at);
    epoch.next().store(region, at);
}

pub fn set_flag(region: &mut [u8], m: Mark)
    requires { header_bytes ≤ length region.old }
    ensures { region.new ≡ put_le 4 region.old flags_at (set_bit (worth m) (le_at 4 region.old flags_at)) }
{
    let flags = Header::read::<u32>(region, Header::FLAGS);
    Header::with_mark(flags, m).store(region, Header::FLAGS);
}
