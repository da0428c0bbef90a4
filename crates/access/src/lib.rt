// The one access of a turn on a lent region.
#![tactic(auto)]

ghost use Rattle.std.specs.Prelude.{◌≡◌, length};
ghost use Rattle.rules.specs.Access.{value_of, leaves_of, buffer_of};
ghost use Rattle.access.specs.Fitted.{Fitted};

use header::Header;
use types::{Access, Party};
use words::Word;

// A push's payload, and a pop's buffer, are for the copies and stand apart, as the promise speaks of them, with the tag and
// the length that the party named.
#[tactic(auto, unfolding(rules::specs::Access::value_of, rules::specs::Access::leaves_of, rules::specs::Access::buffer_of, layout::specs::Limits::total_bytes))]
pub fn perform(region: &mut [u8], p: Party, a: Access, payload: &[u8], buffer: &mut [u8]) -> u64
    requires { Fitted p.own a (length region.old) (length payload.now) p.length (length buffer.old) }
    ensures value { result ≡ value_of region.old p.own a }
    ensures leaves { region.new ≡ leaves_of region.old p.own a p.tag payload.now }
    ensures given { buffer.new ≡ buffer_of region.old p.own a p.length buffer.old }
{
    match a {
        Access::None | Access::WakeBell(_, _) => 0,
        Access::LoadCounter(side) => Header::read::<u64>(region, Header::counter_at(side)),
        Access::LoadFlags => u64::from(Header::read::<u32>(region, Header::FLAGS)),
        Access::LoadBell(b) | Access::WaitBell(b, _) => {
            u64::from(Header::read::<u32>(region, Header::bell_at(b)))
        }
        Access::WriteSlot(count) => {
            copies::write_slot(region, p.own, count, p.tag, payload);
            0
        }
        Access::ReadSlot(count) => copies::read_slot(region, p.own, count, p.length, buffer),
        Access::StoreCounter(side, n) => {
            stores::publish(region, side, n);
            0
        }
        Access::RaiseBell(b) => {
            stores::raise(region, b);
            0
        }
        Access::SetFlag(m) => {
            stores::set_flag(region, m);
            0
        }
    }
}
