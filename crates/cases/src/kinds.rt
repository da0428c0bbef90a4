// A case record, and what each kind of case asks: a library does whatever document 01 has a rule for.
use reports::within;
use types::{Answer, Bench, Event, Own, Party, Played, Reply, Side};
use words::Word;

// The low byte of the header's flags, in which attach sets its bit.
const FLAGS: u32 = 0x48;

// A case record. What part, tag, number and value mean goes by the kind; the others are how much of region, payload and
// buffer is lent.
#[derive(Clone, Copy, PartialEq, Eq)]
pub(crate) struct Case {
    pub(crate) kind: u8,
    pub(crate) part: u8,
    pub(crate) tag: u16,
    pub(crate) number: u32,
    pub(crate) value: u64,
    pub(crate) region: u32,
    pub(crate) lent: u32,
}

// What a case asks for: an event on the bench; or something with the region, or with a side's record.
#[derive(Clone, Copy, PartialEq, Eq)]
enum Asked {
    Event(Event),
    Attach,
    Spoil,
    Create,
    Sweep,
    Put,
}

impl Case {
    pub(crate) const BYTES: usize = 24;

    pub(crate) fn read(given: &[u8; Self::BYTES]) -> Case {
        Case {
            kind: given[0],
            part: given[1],
            tag: u16::load(given, 2),
            number: u32::load(given, 4),
            value: u64::load(given, 8),
            region: u32::load(given, 16),
            lent: u32::load(given, 20),
        }
    }

    fn side(self) -> Side {
        records::side_of(self.part)
    }

    fn on(self) -> bool {
        self.part % 2 == 1
    }

    // None where the kind is unknown.
    fn asked(self) -> Option<Asked> {
        let side = self.side();
        let asked = match self.kind {
            0 => Asked::Event(Event::Turn(side)),
            1 => Asked::Event(Event::Failing(side, self.tag)),
            2 => Asked::Event(Event::Spurious(side)),
            3 => Asked::Event(Event::TimeOut(side)),
            4 => Asked::Event(Event::Push(self.on(), self.tag, self.number)),
            5 => Asked::Event(Event::Pop(self.on(), self.number)),
            6 => Asked::Event(Event::Close(side)),
            7 => Asked::Event(Event::Shutdown(side)),
            8 => Asked::Attach,
            9 => Asked::Spoil,
            10 => Asked::Create,
            11 => Asked::Sweep,
            12 => Asked::Put,
            _ => return None,
        };
        Some(asked)
    }
}

// A party's record with its terms as a case has them, in their limits or out.
fn spoiled(p: Party, c: Case) -> Reply {
    let own = Own {
        side: records::side_of(c.part / 2),
        attached: c.part / 4 == 1,
        power: (c.tag % 0x100) as u8,
        slot: c.number,
        spins: (c.value / 0x1_0000_0000 % 0x1_0000) as u16,
        ..p.own
    };
    let length = (c.value % 0x1_0000_0000) as u32;
    Reply {
        party: Party { own, length, ..p },
        answer: Answer::Done(0, 0),
    }
}

// The bytes of a value, lowest first, and over again with one more each time, as far as there is room.
pub(crate) fn put(s: &mut [u8], at: u32, count: u32, value: u64) -> Answer {
    let bytes = value.to_le_bytes();
    for (k, b) in s
        .iter_mut()
        .skip(at as usize)
        .take(count as usize)
        .enumerate()
    {
        *b = bytes[k % 8].wrapping_add((k / 8 % 0x100) as u8);
    }
    Answer::Done(0, 0)
}

// An attach with one byte changed, and the flags as the case has them.
fn try_value(region: &mut [u8], c: Case, x: u8, sum: u32) -> u32 {
    put(region, FLAGS, 1, c.value);
    put(region, c.number, 1, u64::from(x));
    let reply = attach::attach(region, c.side(), c.tag);
    sums::came_sum(sum, reply, region)
}

// An attach for each value of one byte. What came of all of them is told as the two halves of their sum.
fn sweep(region: &mut [u8], c: Case) -> Answer {
    let mut sum = 0;
    for x in 0..=255u8 {
        sum = try_value(region, c, x, sum);
    }
    Answer::Done((sum % 0x1_0000) as u16, (sum / 0x1_0000) as u16)
}

fn create(region: &mut [u8], c: Case) -> Answer {
    let power = (c.tag % 0x100) as u8;
    create::create(region, power, c.number, c.on(), c.value).into()
}

pub(crate) fn play_case(
    region: &mut [u8],
    payload: &[u8],
    buffer: &mut [u8],
    both: Bench,
    c: Case,
) -> Played {
    let side = c.side();
    let party = seats::party_of(both, side);
    let answered = |answer| Reply { party, answer };
    let reply = match c.asked() {
        Some(Asked::Event(event)) => {
            let n = within(c.lent, payload);
            return bench::play(region, both, event, &payload[..n], buffer);
        }
        Some(Asked::Attach) => attach::attach(region, side, c.tag),
        Some(Asked::Spoil) => spoiled(party, c),
        Some(Asked::Create) => answered(create(region, c)),
        Some(Asked::Sweep) => answered(sweep(region, c)),
        Some(Asked::Put) => answered(put(region, c.number, u32::from(c.tag), c.value)),
        None => answered(Answer::BadCall),
    };
    seats::settled(both, side, reply)
}
