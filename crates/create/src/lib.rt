// Creation of a region: a whole header, and no byte of the ring.
#![tactic(auto)]

ghost use Rattle.std.specs.Prelude.{◌≡◌, length};
ghost use Rattle.types.specs.Refusals.{answered};
ghost use Rattle.layout.specs.Create.{create_answer, first_flags, create_leaves};

use header::Header;
use types::Refusal;

fn first_flags(notfull: bool) -> u32
    ensures { result ≡ first_flags notfull }
{
    if notfull {
        Header::INITIALISED + Header::NOT_FULL_ON
    } else {
        Header::INITIALISED
    }
}

// Both counters begin at start, which is 0 in service. What is asked for stands one by one, as in the definitions.
#[tactic(auto, unfolding(layout::specs::Create::create_answer, layout::specs::Create::create_leaves, layout::specs::Create::created, layout::specs::Limits::total_bytes))]
pub fn create(
    region: &mut [u8],
    power: u8,
    slot: u32,
    notfull: bool,
    start: u64,
) -> Result<(), Refusal>
    ensures answer { answered result ≡ create_answer (length region.old) power slot }
    ensures leaves { region.new ≡ create_leaves region.old power slot notfull start }
{
    let total = sizes::total_bytes(power, slot);
    Refusal::InvalidSlotSize.unless(sizes::slot_ok(slot))?;
    Refusal::InvalidCapacity.unless(sizes::power_ok(power))?;
    Refusal::InvalidLayout.unless(region.len() as u64 == total)?;
    let ring = sizes::ring_bytes(power, slot);
    headed::write_header(region, ring, power, slot, first_flags(notfull), start);
    Ok(())
}
