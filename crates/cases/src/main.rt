// Plays case records from standard input, and writes a report for each to standard output: regions of many sizes and
// starts, regions damaged between turns, records out of their limits. The rules are the libraries': here a record is
// taken apart, a library is called, and what came of it is summed up.
#![tactic(auto)]

ghost use Rattle.std.specs.Prelude.{◌≤◌, length};

mod kinds;

use kinds::Case;
use std::io;
use std::io::Read;
use types::{Bench, Party, Played, Side, Told};
use words::Word;

// A loop needs a bound, and no input takes as many reads: it ends where the input does.
const READS: u64 = 0x4000_0000_0000_0000;

// A report: kind, number, tag, length and error of the answer; for either party its step and the sum of its record; the
// sums of region and buffer.
const REPORT: usize = 32;

// Room for the largest slot twice, and for a ring of as many bytes with the smallest slots; for the largest payload.
const REGION: usize = 131456;

const ROOM: u32 = 65536;

// Reads until given is full, the input ends or a read fails, and says how many bytes came, as `read_exact` does not.
fn read_full(from: &mut impl Read, given: &mut [u8]) -> usize
    ensures { result ≤ length given.new }
{
    let mut got = 0;
    while got < given.len() {
        match from.read(&mut given[got..]) {
            Ok(0) | Err(_) => return got,
            Ok(n) => got += n,
        }
    }
    got
}

// The next record; none where the input has ended, with a message where what is left of it is a cut record.
fn next_case(rt: &impl Eprint, from: &mut impl Read) -> Option<Case> {
    let mut given = [0u8; Case::BYTES];
    let got = read_full(from, &mut given);
    if 0 < got && got < Case::BYTES {
        let _ = eprintln!(rt; "cases: the last record is cut");
    }
    (got == Case::BYTES).then_some(Case::read(&given))
}

// What came of a record, with the sums of the region and of the buffer that it was lent.
#[derive(Clone, Copy)]
struct Came {
    played: Played,
    bytes: u64,
}

// Every record has a buffer of its own, zeros before it.
fn played(region: &mut [u8], payload: &[u8], both: Bench, c: Case) -> Came {
    let mut buffer = [0u8; ROOM as usize];
    let b = reports::within(c.lent, &buffer);
    let played = kinds::play_case(region, payload, &mut buffer[..b], both, c);
    let bytes = sums::bytes_word(region, &buffer[..b]);
    Came { played, bytes }
}

fn report(rt: &impl Print, kind: u8, came: Came) -> io::Result<()> {
    let played = came.played;
    let words = [
        sums::told_word(kind, Told::from(played.answer)),
        sums::party_word(played.bench.sender),
        sums::party_word(played.bench.recorder),
        came.bytes,
    ];
    let mut out = [0u8; REPORT];
    for (word, place) in words.iter().zip(out.chunks_exact_mut(8)) {
        word.store(place, 0);
    }
    rt.write_all(&out)
}

// A region of no bytes is refused, and gives the record of a party not attached.
fn stranger(side: Side) -> Party {
    attach::attach(&mut [], side, 0).party
}

fn play(rt: &(impl Print + Eprint), from: &mut impl Read) -> io::Result<()> {
    let mut region = [0u8; REGION];
    let mut payload = [0u8; ROOM as usize];
    let mut both = Bench {
        sender: stranger(Side::Sender),
        recorder: stranger(Side::Recorder),
    };
    kinds::put(&mut payload, 0, ROOM, 0x4847_4645_4443_4241);
    for _ in 0..READS {
        let Some(c) = next_case(rt, from) else {
            return Ok(());
        };
        let r = reports::within(c.region, &region);
        let came = played(&mut region[..r], &payload, both, c);
        both = came.played.bench;
        report(rt, c.kind, came)?;
    }
    Ok(())
}

fn main(rt: HostRuntime) {
    if let Err(e) = play(&rt, &mut rt.stdin()) {
        let _ = eprintln!(rt; "cases: standard output: {e}");
    }
}
