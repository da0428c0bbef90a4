// One record of a script: what it asks is played, and reported.
#![tactic(auto)]

ghost use Rattle.std.specs.Prelude.{◌≡◌, ◌&&◌, length};
ghost use Rattle.types.specs.Pick.{pick};
ghost use Rattle.records.specs.Records.{record_bytes, payload_in};
ghost use Rattle.opening.specs.Night.{night_of};
ghost use Rattle.script.specs.Script.{is_push, is_begun, after, reported};

use opening::Player;
use records::{Asked, Record};
use types::{Answer, Event, Told};
use words::Word;

// A push that was begun keeps its record's payload. Records are slices here, cut from a block by number.
fn keep(payload: &mut [u8; Record::PAYLOAD_BYTES], given: &[u8], asked: Asked, answer: Answer)
    requires { length given.now ≡ record_bytes }
    ensures { payload.new ≡ pick (is_push asked && is_begun answer) (payload_in given.now) payload.old }
{
    if let (Some(Event::Push(..)), Answer::Begun) = (asked, answer) {
        payload.copy_from_slice(&given[Record::PAYLOAD..]);
    }
}

// One record: what it asks is played, and reported.
pub fn play_record(region: &mut [u8], player: &mut Player, given: &[u8], out: &mut [u8])
    requires { (length given.now ≡ record_bytes) × (length out.old ≡ record_bytes) }
    ensures leaves { night_of region.new player.new ≡ after (night_of region.old player.old) given.now }
    ensures tells { out.new ≡ reported (night_of region.old player.old) given.now }
{
    let asked = records::asked_in(given);
    let answer = asked::play_asked(region, player, asked);
    keep(&mut player.payload, given, asked, answer);
    reports::report_of(
        u8::load(given, Record::KIND),
        Told::from(answer),
        &player.buffer,
        out,
    );
}
