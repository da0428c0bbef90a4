// Attach: the record of the party that joins a region, once its spin count and the region have passed their checks.
#![tactic(auto)]

ghost use Rattle.std.specs.Prelude.{◌≡◌, ◌≤◌, length, OnOk};
ghost use Rattle.types.specs.Refusals.{answered};
ghost use Rattle.layout.specs.Limits.{header_bytes};
ghost use Rattle.layout.specs.Attach.{fresh, unattached, attached, attach_answer, attach_reply, attach_leaves};

use header::Header;
use types::{Own, Party, Refusal, Reply, Side, Step};
use words::Word;

// A party at rest that has named nothing yet.
fn fresh(own: Own, counter: u64) -> Party
    ensures { result ≡ fresh own counter }
{
    Party {
        own,
        closed: false,
        counter,
        blocking: false,
        tag: 0,
        length: 0,
        step: Step::Rest,
    }
}

fn unattached(side: Side) -> Party
    ensures { result ≡ unattached side }
{
    let own = Own {
        side,
        attached: false,
        power: 0,
        slot: 0,
        notfull: false,
        spins: 0,
    };
    fresh(own, 0)
}

// The party's own copy of its counter, the sizes and the option, and its spin count.
fn attached(region: &[u8], side: Side, spins: u16) -> Party
    requires { header_bytes ≤ length region.now }
    ensures { result ≡ attached region.now side spins }
{
    let own = Own {
        side,
        attached: true,
        power: Header::read::<u8>(region, Header::POWER),
        slot: Header::read::<u32>(region, Header::SLOT_SIZE),
        notfull: Header::notfull_on(Header::read::<u32>(region, Header::FLAGS)),
        spins,
    };
    fresh(own, Header::read::<u64>(region, Header::counter_at(side)))
}

// What the entry is given, tested in order: a count above the limit is refused before anything of the region is looked at,
// and a region too short for a header has no fields to check.
#[tactic(auto, unfolding(layout::specs::Attach::attach_answer, layout::specs::Attach::attach_checks, layout::specs::Attach::region_checks))]
fn accept(region: &[u8], side: Side, spins: u16) -> Result<(), Refusal>
    ensures answer { answered result ≡ attach_answer region.now side spins }
    ensures long { OnOk result (header_bytes ≤ length region.now) }
{
    Refusal::BadCall.unless(sizes::spins_ok(spins))?;
    Refusal::InvalidLayout.unless(Header::BYTES <= region.len())?;
    checks::check(region, side)
}

#[tactic(auto, unfolding(layout::specs::Attach::attach_reply, layout::specs::Attach::attach_leaves))]
pub fn attach(region: &mut [u8], side: Side, spins: u16) -> Reply
    ensures reply { result ≡ attach_reply region.old side spins }
    ensures leaves { region.new ≡ attach_leaves region.old side spins }
{
    let accepted = accept(region, side, spins);
    let answer = accepted.into();
    match accepted {
        Ok(()) => {
            let party = attached(region, side, spins);
            stores::set_flag(region, Header::attach_mark(side));
            Reply { party, answer }
        }
        Err(_) => Reply {
            party: unattached(side),
            answer,
        },
    }
}
