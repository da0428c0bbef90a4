// The header of a region: where its fields lie, what its flags are worth, and functions that read a field and set a flag.
#![tactic(auto)]

ghost use Rattle.std.specs.Prelude.{◌≡◌, ◌+◌, ◌<◌, ◌≤◌, length};
ghost use Rattle.words.specs.Le.{le_at};
ghost use Rattle.layout.specs.Limits.{header_bytes};
ghost use Rattle.layout.specs.Flags.{initialised, not_full_on, worth, bit_on, set_bit, attach_mark, close_mark};
ghost use Rattle.layout.specs.Header.{counter_at, bell_at};

use types::{Bell, Mark, Side};
use words::Word;

#[derive(Clone, Copy)]
pub struct Header {}

impl Header {
    pub const BYTES: usize = 384;

    // At the very start of a region.
    pub const MAGIC: [u8; 8] = *b"QFSPSQHS";

    pub const MAJOR: usize = 0x008;

    pub const MINOR: usize = 0x00A;

    pub const HEADER_SIZE: usize = 0x00C;

    pub const TOTAL_SIZE: usize = 0x010;

    pub const RING_OFFSET: usize = 0x018;

    pub const RING_BYTES: usize = 0x020;

    pub const ARENA_OFFSET: usize = 0x028;

    pub const ARENA_BYTES: usize = 0x030;

    pub const POWER: usize = 0x038;

    pub const SLOT_SIZE: usize = 0x040;

    pub const FLAGS: usize = 0x048;

    pub const SENDER_PID: usize = 0x050;

    pub const RECORDER_PID: usize = 0x054;

    pub const ERROR_CODE: usize = 0x058;

    pub const HEAD: usize = 0x080;

    pub const TAIL: usize = 0x0C0;

    pub const NOT_EMPTY: usize = 0x100;

    pub const NOT_FULL: usize = 0x140;

    pub const INITIALISED: u32 = 0x01;

    pub const SENDER_ATTACHED: u32 = 0x02;

    pub const RECORDER_ATTACHED: u32 = 0x04;

    pub const SENDER_CLOSED: u32 = 0x08;

    pub const RECORDER_CLOSED: u32 = 0x10;

    pub const SHUTDOWN: u32 = 0x20;

    pub const NOT_FULL_ON: u32 = 0x40;

    // The flags from this bit on are zero.
    pub const RESERVED_FROM: u32 = 0x80;

    // The word of a field: the header's own reader, of whatever width the field has.
    pub fn read<W: Word>(region: &[u8], field: usize) -> W
        requires { field + W.bytes ≤ length region.now }
        ensures { W.number result ≡ le_at W.bytes region.now field }
    {
        W::load(region, field)
    }

    // Where a side's own counter lies.
    pub fn counter_at(side: Side) -> usize
        ensures is { result ≡ counter_at side }
        ensures within { result + 8 ≤ header_bytes }
    {
        match side {
            Side::Sender => Self::HEAD,
            Side::Recorder => Self::TAIL,
        }
    }

    pub fn bell_at(b: Bell) -> usize
        ensures is { result ≡ bell_at b }
        ensures within { result + 4 ≤ header_bytes }
    {
        match b {
            Bell::NotEmpty => Self::NOT_EMPTY,
            Bell::NotFull => Self::NOT_FULL,
        }
    }

    fn worth(mark: Mark) -> u32
        ensures { result ≡ worth mark }
    {
        match mark {
            Mark::SenderAttached => Self::SENDER_ATTACHED,
            Mark::RecorderAttached => Self::RECORDER_ATTACHED,
            Mark::SenderClosed => Self::SENDER_CLOSED,
            Mark::RecorderClosed => Self::RECORDER_CLOSED,
            Mark::Shutdown => Self::SHUTDOWN,
        }
    }

    // Whether the bit of that worth is set: by division, as the definitions take a word apart here and elsewhere.
    fn is_on(flags: u32, bit: u32) -> bool
        requires { 0 < bit }
        ensures { result ≡ bit_on bit flags }
    {
        flags / bit % 2 == 1
    }

    // Two flags that no party sets, so they are no `Mark`; each is `is_on` with its bit.
    pub fn initialised(flags: u32) -> bool
        ensures { result ≡ bit_on initialised flags }
    {
        Self::is_on(flags, Self::INITIALISED)
    }

    pub fn notfull_on(flags: u32) -> bool
        ensures { result ≡ bit_on not_full_on flags }
    {
        Self::is_on(flags, Self::NOT_FULL_ON)
    }

    pub fn has(flags: u32, mark: Mark) -> bool
        ensures { result ≡ bit_on (worth mark) flags }
    {
        Self::is_on(flags, Self::worth(mark))
    }

    // The flags with that bit set. A bit that is clear has room for its worth.
    pub fn with_mark(flags: u32, mark: Mark) -> u32
        ensures { result ≡ set_bit (worth mark) flags }
    {
        if Self::has(flags, mark) {
            flags
        } else {
            flags + Self::worth(mark)
        }
    }

    // This and the next are tables of two rows each, with no value in common.
    pub fn attach_mark(side: Side) -> Mark
        ensures { result ≡ attach_mark side }
    {
        match side {
            Side::Sender => Mark::SenderAttached,
            Side::Recorder => Mark::RecorderAttached,
        }
    }

    pub fn close_mark(side: Side) -> Mark
        ensures { result ≡ close_mark side }
    {
        match side {
            Side::Sender => Mark::SenderClosed,
            Side::Recorder => Mark::RecorderClosed,
        }
    }
}
