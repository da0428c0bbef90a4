// Whom a turn wakes, and what a wake makes of a party.
#![tactic(auto, unfolding(rules::specs::Bench::wakened))]

ghost use Rattle.std.specs.Prelude.{◌≡◌};
ghost use Rattle.rules.specs.Turn.{woke_of};
ghost use Rattle.rules.specs.Bench.{wakened};

use types::{Access, Bell, Party, Side, Step};

// A wake alone wakes, and not where it fails. An error is a number, 0 for none, as in `take`.
pub fn woke_of(a: Access, error: u16) -> Option<Bell>
    ensures { result ≡ woke_of a error }
{
    match a {
        Access::WakeBell(bell, _) if error == 0 => Some(bell),
        Access::None
        | Access::LoadCounter(_)
        | Access::LoadFlags
        | Access::LoadBell(_)
        | Access::WriteSlot(_)
        | Access::ReadSlot(_)
        | Access::StoreCounter(..)
        | Access::RaiseBell(_)
        | Access::SetFlag(_)
        | Access::WaitBell(..)
        | Access::WakeBell(..) => None,
    }
}

// A wake leads a sleeper to its look, on the bell that its side sleeps on, and moves nobody else.
pub fn wakened(side: Side, p: Party, w: Option<Bell>) -> Party
    ensures { result ≡ wakened side p w }
{
    if w == Some(sides::sleep_bell(side)) && sound::sleeps(p) {
        return replies::at(p, Step::Look);
    }
    p
}
