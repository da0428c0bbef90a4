// The house limits, and the sizes that follow from a power and a slot size. Nothing here wraps: a capacity is at most
// 2^30 and a slot size below 2^32. The two stand side by side: a party's terms and a header have both among others.
#![tactic(auto)]

ghost use Rattle.std.specs.Prelude.{◌≡◌, true};
ghost use Rattle.layout.specs.Limits.{power_ok, slot_ok, spins_ok, capacity, payload_capacity, ring_bytes, total_bytes};
ghost use Rattle.layout.specs.Slots.{slot_at};

#[derive(Clone, Copy)]
pub struct Limits {}

impl Limits {
    pub const LEAST_POWER: u8 = 1;

    pub const MOST_POWER: u8 = 30;

    pub const LEAST_SLOT: u32 = 8;

    pub const MOST_SLOT: u32 = 65536;

    pub const SLOT_STEP: u32 = 8;

    pub const MOST_SPINS: u16 = 1000;

    // As `Header::BYTES`, which is a place in usize.
    pub const HEADER_BYTES: u64 = 384;

    pub const SLOT_HEAD_BYTES: u32 = 8;
}

#[tactic(auto, unfolding(layout::specs::Limits::power_ok))]
pub fn power_ok(power: u8) -> bool
    ensures { result ≡ power_ok power }
{
    (Limits::LEAST_POWER..=Limits::MOST_POWER).contains(&power)
}

#[tactic(auto, unfolding(layout::specs::Limits::slot_ok))]
pub fn slot_ok(slot: u32) -> bool
    ensures { result ≡ slot_ok slot }
{
    (Limits::LEAST_SLOT..=Limits::MOST_SLOT).contains(&slot) && slot % Limits::SLOT_STEP == 0
}

#[tactic(auto, unfolding(layout::specs::Limits::spins_ok))]
pub fn spins_ok(spins: u16) -> bool
    ensures { result ≡ spins_ok spins }
{
    spins <= Limits::MOST_SPINS
}

// A power above the limit has no slots.
#[tactic(auto, unfolding(layout::specs::Limits::capacity))]
pub fn capacity(power: u8) -> u64
    ensures { result ≡ capacity power }
{
    if power <= Limits::MOST_POWER {
        1 << power
    } else {
        0
    }
}

// A slot size below its own header has no payload.
#[tactic(auto, unfolding(layout::specs::Limits::payload_capacity))]
pub fn payload_capacity(slot: u32) -> u32
    ensures { result ≡ payload_capacity slot }
{
    slot.saturating_sub(Limits::SLOT_HEAD_BYTES)
}

#[tactic(auto, unfolding(layout::specs::Limits::ring_bytes))]
pub fn ring_bytes(power: u8, slot: u32) -> u64
    ensures { result ≡ ring_bytes power slot }
{
    capacity(power) * u64::from(slot)
}

#[tactic(auto, unfolding(layout::specs::Limits::total_bytes))]
pub fn total_bytes(power: u8, slot: u32) -> u64
    ensures { result ≡ total_bytes power slot }
{
    Limits::HEADER_BYTES + ring_bytes(power, slot)
}

// Where the slot of a counter begins.
#[tactic(auto, unfolding(layout::specs::Slots::slot_at))]
pub fn slot_at(power: u8, slot: u32, count: u64) -> usize
    requires { power_ok power ≡ true }
    ensures { result ≡ slot_at power slot count }
{
    let place = count % capacity(power);
    (Limits::HEADER_BYTES + place * u64::from(slot)) as usize
}
