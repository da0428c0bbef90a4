// The checks of a region that a party would join, in their order.
#![tactic(auto)]

ghost use Rattle.std.specs.Prelude.{◌≡◌, ◌≤◌, length};
ghost use Rattle.types.specs.Answers.{first_of};
ghost use Rattle.types.specs.Refusals.{answered};
ghost use Rattle.layout.specs.Limits.{header_bytes};
ghost use Rattle.layout.specs.Header.{reserved, all_zero};
ghost use Rattle.layout.specs.Attach.{version_ok, sizes_ok, flag_checks, ring_checks, region_checks};

use header::Header;
use sizes::Limits;
use types::{Refusal, Side};
use words::Word;

#[tactic(auto, unfolding(layout::specs::Attach::flag_checks))]
fn check_flags(flags: u32, side: Side) -> Result<(), Refusal>
    ensures { answered result ≡ first_of (flag_checks flags side) }
{
    Refusal::InvalidLayout.unless(flags < Header::RESERVED_FROM)?;
    Refusal::WouldBlock.unless(Header::initialised(flags))?;
    Refusal::AlreadyAttached.unless(!Header::has(flags, Header::attach_mark(side)))
}

// A region that has room for a header.
#[derive(Clone, Copy)]
struct Region<'a> {
    bytes: &'a [u8],
    ghost long: { header_bytes ≤ length bytes.now },
}

impl Region<'_> {
    #[tactic(auto, unfolding(layout::specs::Attach::version_ok))]
    fn version_ok(&self) -> bool
        ensures { result ≡ version_ok self.now.bytes.now }
    {
        Header::read::<u16>(self.bytes, Header::MAJOR) == 0
            && Header::read::<u16>(self.bytes, Header::MINOR) == 1
    }

    // The header is taken off the total size, since the sum of header and ring might wrap. From usize there is no From: `as`.
    #[tactic(auto, unfolding(layout::specs::Attach::sizes_ok))]
    fn sizes_ok(&self) -> bool
        ensures { result ≡ sizes_ok self.now.bytes.now }
    {
        let total = Header::read::<u64>(self.bytes, Header::TOTAL_SIZE);
        let ring = Header::read::<u64>(self.bytes, Header::RING_BYTES);
        total == self.bytes.len() as u64
            && Header::read::<u64>(self.bytes, Header::RING_OFFSET) == Limits::HEADER_BYTES
            && Header::read::<u64>(self.bytes, Header::ARENA_OFFSET) == 0
            && Header::read::<u64>(self.bytes, Header::ARENA_BYTES) == 0
            && total.checked_sub(Limits::HEADER_BYTES) == Some(ring)
    }

    // The header's bytes that are in no field.
    fn reserved_ok(&self) -> bool
        ensures { result ≡ all_zero self.now.bytes.now reserved }
    {
        scans::all_zero(self.bytes, 7, 0x039)
            && scans::all_zero(self.bytes, 4, 0x044)
            && scans::all_zero(self.bytes, 4, 0x04C)
            && scans::all_zero(self.bytes, 36, 0x05C)
            && scans::all_zero(self.bytes, 56, 0x088)
            && scans::all_zero(self.bytes, 56, 0x0C8)
            && scans::all_zero(self.bytes, 60, 0x104)
            && scans::all_zero(self.bytes, 60, 0x144)
    }

    #[tactic(auto, unfolding(layout::specs::Attach::ring_checks))]
    fn check_ring(&self, side: Side) -> Result<(), Refusal>
        ensures { answered result ≡ first_of (ring_checks self.now.bytes.now side) }
    {
        let slot = Header::read::<u32>(self.bytes, Header::SLOT_SIZE);
        let power = Header::read::<u8>(self.bytes, Header::POWER);
        let ring = Header::read::<u64>(self.bytes, Header::RING_BYTES);
        Refusal::InvalidSlotSize.unless(sizes::slot_ok(slot))?;
        Refusal::InvalidCapacity.unless(sizes::power_ok(power))?;
        Refusal::InvalidLayout.unless(ring == sizes::ring_bytes(power, slot))?;
        Refusal::InvalidLayout.unless(self.reserved_ok())?;
        check_flags(Header::read::<u32>(self.bytes, Header::FLAGS), side)
    }
}

// All checks of a region that has room for a header.
#[tactic(auto, unfolding(layout::specs::Attach::region_checks, layout::specs::Attach::magic_ok))]
pub fn check(region: &[u8], side: Side) -> Result<(), Refusal>
    requires { header_bytes ≤ length region.now }
    ensures { answered result ≡ first_of (region_checks region.now side) }
{
    let region = Region { bytes: region };
    let header_size = Header::read::<u32>(region.bytes, Header::HEADER_SIZE);
    Refusal::InvalidMagic.unless(scans::same_bytes(region.bytes, 0, &Header::MAGIC))?;
    Refusal::UnsupportedVersion.unless(region.version_ok())?;
    Refusal::InvalidHeaderSize.unless(u64::from(header_size) == Limits::HEADER_BYTES)?;
    Refusal::InvalidLayout.unless(region.sizes_ok())?;
    region.check_ring(side)
}
