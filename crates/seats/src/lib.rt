// The two seats of a bench, and what becomes of them when a party has had its turn.
#![tactic(auto, unfolding(rules::specs::Bench::settled, rules::specs::Bench::turned))]

ghost use Rattle.std.specs.Prelude.{◌≡◌};
ghost use Rattle.rules.specs.Bench.{party_of, seat, settled, turned};

use types::{Bench, Party, Played, Reply, Side, Turned};

// No `Index`: it would have to stand in `types`, below `party_of`.
pub fn party_of(b: Bench, side: Side) -> Party
    ensures { result ≡ party_of b side }
{
    match side {
        Side::Sender => b.sender,
        Side::Recorder => b.recorder,
    }
}

// The bench with that side's party anew.
pub fn seat(b: Bench, side: Side, p: Party) -> Bench
    ensures { result ≡ seat b side p }
{
    match side {
        Side::Sender => Bench { sender: p, ..b },
        Side::Recorder => Bench { recorder: p, ..b },
    }
}

pub fn settled(b: Bench, side: Side, r: Reply) -> Played
    ensures { result ≡ settled b side r }
{
    Played {
        bench: seat(b, side, r.party),
        answer: r.answer,
    }
}

// Only the other side can have been asleep during a turn.
pub fn turned(b: Bench, side: Side, t: Turned) -> Played
    ensures { result ≡ turned b side t }
{
    let them = sides::other(side);
    let heard = wakes::wakened(them, party_of(b, them), t.woke);
    let moved = seat(b, side, t.party);
    Played {
        bench: seat(moved, them, heard),
        answer: t.answer,
    }
}
