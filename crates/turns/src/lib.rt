// A turn over a lent region: what is refused is tested, and else the party acts.
#![tactic(auto, unfolding(rules::specs::Turn::goes, rules::specs::Calls::sound, rules::specs::Next::next_spec, rules::specs::Turn::turn_spec, rules::specs::Turn::turn_leaves, rules::specs::Turn::turn_buffer))]

ghost use Rattle.std.specs.Prelude.{◌≡◌, []};
ghost use Rattle.rules.specs.Turn.{refused, turn_spec, turn_leaves, turn_buffer};

use types::{Answer, Fault, Party, Side, Turned};

fn refused(party: Party) -> Turned
    ensures { result ≡ refused party }
{
    Turned {
        party,
        answer: Answer::BadCall,
        woke: None,
    }
}

// A turn of that side: a push's copy reads the payload, a pop's writes the buffer. What is refused is tested here, before
// anything is touched. Region, payload and buffer stand side by side, since the promise says of each what it becomes.
pub fn turn(
    side: Side,
    region: &mut [u8],
    p: Party,
    payload: &[u8],
    buffer: &mut [u8],
    fault: Fault,
) -> Turned
    ensures value { result ≡ turn_spec side region.old p payload.now buffer.old fault }
    ensures leaves { region.new ≡ turn_leaves side region.old p payload.now buffer.old fault }
    ensures given { buffer.new ≡ turn_buffer side region.old p payload.now buffer.old fault }
{
    if grounds::goes(side, p, region.len(), payload.len(), buffer.len(), fault) {
        return acts::act(region, p, payload, buffer, grounds::error_of(fault));
    }
    refused(p)
}

// A sender has no buffer to be lent. This and the next are what a host calls that has one side alone.
pub fn push_turn(region: &mut [u8], p: Party, payload: &[u8], fault: Fault) -> Turned
    ensures value { result ≡ turn_spec Side.Sender region.old p payload.now [] fault }
    ensures leaves { region.new ≡ turn_leaves Side.Sender region.old p payload.now [] fault }
{
    turn(Side::Sender, region, p, payload, &mut [], fault)
}

// A recorder has no payload.
pub fn pop_turn(region: &mut [u8], p: Party, buffer: &mut [u8], fault: Fault) -> Turned
    ensures value { result ≡ turn_spec Side.Recorder region.old p [] buffer.old fault }
    ensures leaves { region.new ≡ turn_leaves Side.Recorder region.old p [] buffer.old fault }
    ensures given { buffer.new ≡ turn_buffer Side.Recorder region.old p [] buffer.old fault }
{
    turn(Side::Recorder, region, p, &[], buffer, fault)
}
