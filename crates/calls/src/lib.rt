// A party between its turns: the calls that it begins, and what comes to it while it sleeps.
#![tactic(auto, unfolding(rules::specs::Calls::push_spec, rules::specs::Calls::pop_spec, rules::specs::Calls::close_spec, rules::specs::Calls::shut_spec, rules::specs::Calls::spurious_spec, rules::specs::Calls::timeout_spec))]

ghost use Rattle.std.specs.Prelude.{◌≡◌, true, false};
ghost use Rattle.rules.specs.Calls.{ready, sound, is_sleeping, at, reply, begins, rouses, push_spec, pop_spec, close_spec, shut_spec, spurious_spec, timeout_spec};
ghost use Rattle.rules.specs.Take.{stance_of};

use types::{Answer, Party, Reply, Side, Step};

pub fn begin_push(p: Party, blocking: bool, tag: u16, length: u32) -> Reply
    ensures { result ≡ push_spec p blocking tag length }
{
    let goes = sound::ready(Side::Sender, p);
    let off = blocking && !p.own.notfull;
    let fits = sound::length_ok(Side::Sender, length, p.own.slot);
    let begun = replies::named(p, blocking, tag, length);
    replies::begins(p, goes, p.closed, off, !fits, begun)
}

// A call other than a push: neither 19 nor 18 is a ground.
fn begin(side: Side, p: Party, closed: bool, begun: Party) -> Reply
    ensures { result ≡ begins p (ready side p) closed false false begun }
{
    replies::begins(p, sound::ready(side, p), closed, false, false, begun)
}

// A pop names no tag.
pub fn begin_pop(p: Party, blocking: bool, length: u32) -> Reply
    ensures { result ≡ pop_spec p blocking length }
{
    begin(
        Side::Recorder,
        p,
        p.closed,
        replies::named(p, blocking, 0, length),
    )
}

pub fn begin_close(side: Side, p: Party) -> Reply
    ensures { result ≡ close_spec side p }
{
    begin(side, p, p.closed, replies::at(p, Step::CloseSet))
}

// A shutdown may be begun after one's own close.
pub fn begin_shutdown(side: Side, p: Party) -> Reply
    ensures { result ≡ shut_spec side p }
{
    begin(side, p, false, replies::at(p, Step::ShutSet(false)))
}

// What comes to a sleeper leads it on, to that step.
fn rouse(side: Side, p: Party, step: Step) -> Reply
    ensures { result ≡ rouses p (sound side p) (is_sleeping (stance_of p.step)) (reply (at step p) Answer.GoesOn) }
{
    let roused = replies::reply(replies::at(p, step), Answer::GoesOn);
    replies::rouses(p, sound::sound(side, p), sound::sleeps(p), roused)
}

// A spurious return leads a sleeper to its look.
pub fn spurious(side: Side, p: Party) -> Reply
    ensures { result ≡ spurious_spec side p }
{
    rouse(side, p, Step::Look)
}

// A time-out leads a sleeper to its last look, which ends the call over no room alone.
pub fn time_out(side: Side, p: Party) -> Reply
    ensures { result ≡ timeout_spec side p }
{
    rouse(side, p, Step::LastLook(true))
}
