// Bytes, parties and answers summed up in a number, so that a report shows whether anything changed.
#![tactic(auto)]

ghost use Rattle.std.specs.Prelude.{◌≡◌};
ghost use Rattle.sums.specs.Sums.{mix, mix_wide, mix_bytes, pair, whose, stand_of, own_sum, party_sum, party_word, told_word, bytes_word, came_sum};

use types::{Own, Party, Reply, Side, Step, Told};

// What the upper half of a word counts in.
const HIGH: u64 = 0x1_0000_0000;

const FACTOR: u32 = 0x100_0193;

// A sum of 32 bits, which wraps.
#[derive(Clone, Copy)]
struct Sum(u32);

impl Sum {
    #[tactic(auto, unfolding(crate::specs::Sums::mix))]
    fn mix(self, x: u32) -> Sum
        ensures { result.0 ≡ mix self.0 x }
    {
        Sum(self.0.wrapping_mul(FACTOR).wrapping_add(x).wrapping_add(1))
    }

    #[tactic(auto, unfolding(crate::specs::Sums::mix_wide))]
    fn mix_wide(self, x: u64) -> Sum
        ensures { result.0 ≡ mix_wide self.0 x }
    {
        self.mix((x % HIGH) as u32).mix((x / HIGH) as u32)
    }

    #[tactic(auto, unfolding(crate::specs::Sums::mix_bytes))]
    fn mix_bytes(self, s: &[u8]) -> Sum
        ensures { result.0 ≡ mix_bytes self.0 s.now }
    {
        s.iter().fold(self, |sum, x| sum.mix(u32::from(*x)))
    }
}

#[tactic(auto, unfolding(crate::specs::Sums::pair))]
fn pair(low: u32, high: u32) -> u64
    ensures { result ≡ pair low high }
{
    u64::from(low) + u64::from(high) * HIGH
}

// A report's number for a side, and below for a step: they are the report's, so neither is a cast of the enum.
fn whose(side: Side) -> u32
    ensures { result ≡ whose side }
{
    match side {
        Side::Sender => 0,
        Side::Recorder => 1,
    }
}

// A report's number for a step, whatever it carries.
fn stand_of(step: Step) -> u32
    ensures { result ≡ stand_of step }
{
    match step {
        Step::Rest => 0,
        Step::Look => 1,
        Step::Copy => 2,
        Step::Publish(_, _) => 3,
        Step::Check(_, _) => 4,
        Step::Raise(_, _) => 5,
        Step::Wake(_, _) => 6,
        Step::Gate => 7,
        Step::Spin(_) => 22,
        Step::Epoch => 8,
        Step::Again(_) => 9,
        Step::GateAgain(_) => 10,
        Step::Wait(_) => 11,
        Step::Asleep => 12,
        Step::LastLook(_) => 21,
        Step::CloseSet => 13,
        Step::CloseRaise => 14,
        Step::CloseWake => 15,
        Step::ShutSet(_) => 16,
        Step::ShutRaiseNe(_) => 17,
        Step::ShutWakeNe(_) => 18,
        Step::ShutRaiseNf(_, _) => 19,
        Step::ShutWakeNf(_, _) => 20,
    }
}

#[tactic(auto, unfolding(crate::specs::Sums::own_sum))]
fn own_sum(own: Own) -> Sum
    ensures { result.0 ≡ own_sum own }
{
    Sum(whose(own.side))
        .mix(u32::from(own.attached))
        .mix(u32::from(own.power))
        .mix(own.slot)
        .mix(u32::from(own.notfull))
        .mix(u32::from(own.spins))
}

#[tactic(auto, unfolding(crate::specs::Sums::party_sum))]
fn party_sum(p: Party) -> Sum
    ensures { result.0 ≡ party_sum p }
{
    own_sum(p.own)
        .mix(u32::from(p.closed))
        .mix_wide(p.counter)
        .mix(u32::from(p.blocking))
        .mix(u32::from(p.tag))
        .mix(p.length)
}

// A party's step, and the sum of the rest of its record.
#[tactic(auto, unfolding(crate::specs::Sums::party_word))]
pub fn party_word(p: Party) -> u64
    ensures { result ≡ party_word p }
{
    pair(stand_of(p.step), party_sum(p).0)
}

// A kind, and the number, tag, length and error of an answer.
#[tactic(auto, unfolding(crate::specs::Sums::told_word))]
pub fn told_word(kind: u8, t: Told) -> u64
    ensures { result ≡ told_word kind t }
{
    let low = u32::from(kind) + 0x100 * u32::from(t.number) + 0x1_0000 * u32::from(t.tag);
    pair(low, u32::from(t.length) + 0x1_0000 * u32::from(t.error))
}

// The sums of a region and of a buffer.
#[tactic(auto, unfolding(crate::specs::Sums::bytes_word))]
pub fn bytes_word(region: &[u8], buffer: &[u8]) -> u64
    ensures { result ≡ bytes_word region.now buffer.now }
{
    pair(Sum(0).mix_bytes(region).0, Sum(0).mix_bytes(buffer).0)
}

// What came of an attach, summed up with what came of those before it.
#[tactic(auto, unfolding(crate::specs::Sums::came_sum))]
pub fn came_sum(sum: u32, reply: Reply, region: &[u8]) -> u32
    ensures { result ≡ came_sum sum reply region.now }
{
    Sum(sum)
        .mix_wide(told_word(0, Told::from(reply.answer)))
        .mix_wide(party_word(reply.party))
        .mix_bytes(region)
        .0
}
