// How an answer is reported, and how much of a payload or another slice is lent.
#![tactic(auto)]

ghost use Rattle.std.specs.Prelude.{◌≡◌, ◌≤◌, min, length, take};
ghost use Rattle.records.specs.Records.{record_bytes, payload_bytes, shown, report_of, cut_report};

use records::Record;
use types::{Answer, Told};
use words::Word;

// As many bytes of a buffer as a note has, and no more than there are.
pub fn lent(n: u32) -> usize
    ensures is { result ≡ min n payload_bytes }
    ensures within { result ≤ payload_bytes }
{
    (n as usize).min(Record::PAYLOAD_BYTES)
}

// As much of a slice as is asked for, and no more than there is. What `within` says follows from `is`: it is what a caller
// has to show of the part that it lends.
pub fn within(asked: u32, s: &[u8]) -> usize
    ensures is { result ≡ min asked (length s.now) }
    ensures within { (result ≤ length s.now) × (result ≡ length (take result s.now)) }
{
    (asked as usize).min(s.len())
}

// What a report shows of a buffer: a delivered note's bytes alone. Told is any answer in numbers, and 0 is Done.
fn shown(t: Told, buffer: &[u8]) -> &[u8]
    requires { length buffer.now ≡ payload_bytes }
    ensures is { result.now ≡ shown t buffer.now }
    ensures within { length result.now ≤ payload_bytes }
{
    match t.number {
        0 => &buffer[..lent(u32::from(t.length))],
        _ => &[],
    }
}

// A report is laid out as a record is, with the answer's number in the mode's place.
pub fn report_of(kind: u8, t: Told, buffer: &[u8], out: &mut [u8])
    requires { (length buffer.now ≡ payload_bytes) × (length out.old ≡ record_bytes) }
    ensures { out.new ≡ report_of kind t buffer.now }
{
    let shown = shown(t, buffer);
    out.fill(0);
    kind.store(out, Record::KIND);
    t.number.store(out, Record::MODE);
    t.tag.store(out, Record::TAG);
    t.length.store(out, Record::LENGTH);
    t.error.store(out, Record::ERROR);
    out[Record::PAYLOAD..Record::PAYLOAD + shown.len()].copy_from_slice(shown);
}

// The report of a cut last record.
#[tactic(auto, unfolding(records::specs::Records::cut_report))]
pub fn cut_report(out: &mut [u8; Record::BYTES])
    ensures { out.new ≡ cut_report }
{
    *out = [0; Record::BYTES];
    out[Record::KIND] = 0xFF;
    out[Record::MODE] = Told::from(Answer::BadCall).number;
}
