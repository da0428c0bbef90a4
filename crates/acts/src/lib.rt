// A turn that is not refused: the party's next access, that access, and what becomes of the party.
#![tactic(auto, unfolding(rules::specs::Turn::act_spec, rules::specs::Turn::act_leaves, rules::specs::Turn::act_buffer))]

ghost use Rattle.std.specs.Prelude.{◌≡◌, length};
ghost use Rattle.rules.specs.Next.{next_spec};
ghost use Rattle.rules.specs.Turn.{act_spec, act_leaves, act_buffer};
ghost use Rattle.access.specs.Fitted.{Fitted};

use types::{Party, Reply, Turned};

// An error is a number, 0 for none, as in `take`.
pub fn act(region: &mut [u8], p: Party, payload: &[u8], buffer: &mut [u8], error: u16) -> Turned
    requires { Fitted p.own (next_spec p) (length region.old) (length payload.now) p.length (length buffer.old) }
    ensures value { result ≡ act_spec region.old p error }
    ensures leaves { region.new ≡ act_leaves region.old p payload.now }
    ensures given { buffer.new ≡ act_buffer region.old p buffer.old }
{
    let a = next::next(p);
    let value = access::perform(region, p, a, payload, buffer);
    let Reply { party, answer } = take::take(p, value, error);
    Turned {
        party,
        answer,
        woke: wakes::woke_of(a, error),
    }
}
