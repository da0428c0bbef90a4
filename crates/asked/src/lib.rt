// What a record asks, played on the bench.
#![tactic(auto)]

ghost use Rattle.std.specs.Prelude.{◌≡◌, ◌++◌, take, drop};
ghost use Rattle.rules.specs.Bench.{played, played_leaves, played_buffer};
ghost use Rattle.opening.specs.Night.{night_of};
ghost use Rattle.asked.specs.Played.{played_by, region_by, buffer_by};

use opening::Player;
use records::Asked;
use types::{Answer, Bench, Event, Played};

// An event, lent as much of payload and buffer as the calls named.
fn play_event(
    region: &mut [u8],
    b: Bench,
    event: Event,
    payload: &[u8],
    buffer: &mut [u8],
) -> Played
    ensures value { result ≡ played region.old b (take b.sender.length payload.now) (take b.recorder.length buffer.old) event }
    ensures leaves { region.new ≡ played_leaves region.old b (take b.sender.length payload.now) (take b.recorder.length buffer.old) event }
    ensures given { buffer.new ≡ played_buffer region.old b (take b.sender.length payload.now) (take b.recorder.length buffer.old) event ++ drop b.recorder.length buffer.old }
{
    let n = reports::within(b.sender.length, payload);
    let m = reports::within(b.recorder.length, buffer);
    bench::play(region, b, event, &payload[..n], &mut buffer[..m])
}

#[tactic(auto, unfolding(crate::specs::Played::played_by, crate::specs::Played::region_by, crate::specs::Played::buffer_by))]
pub fn play_asked(region: &mut [u8], player: &mut Player, asked: Asked) -> Answer
    ensures value { record { bench = player.new.bench; answer = result } ≡ played_by asked (night_of region.old player.old) }
    ensures leaves { region.new ≡ region_by asked (night_of region.old player.old) }
    ensures given { player.new.buffer ≡ buffer_by asked (night_of region.old player.old) }
    ensures keeps { player.new.payload ≡ player.old.payload }
{
    match asked {
        Some(event) => {
            let played = play_event(
                region,
                player.bench,
                event,
                &player.payload,
                &mut player.buffer,
            );
            player.bench = played.bench;
            played.answer
        }
        None => Answer::BadCall,
    }
}
