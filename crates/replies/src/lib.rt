// How a call is begun, and how a sleeper rises: the order of what is refused.
#![tactic(auto)]

ghost use Rattle.std.specs.Prelude.{◌≡◌};
ghost use Rattle.rules.specs.Calls.{reply, at, named, begins, rouses};

use types::{Answer, Party, Reply, Step};

pub fn reply(party: Party, answer: Answer) -> Reply
    ensures { result ≡ reply party answer }
{
    Reply { party, answer }
}

// The party at another step.
pub fn at(p: Party, step: Step) -> Party
    ensures { result ≡ at step p }
{
    Party { step, ..p }
}

// The party at its first look, with what a push or a pop names: the fields of its event, one by one as the record has them.
pub fn named(p: Party, blocking: bool, tag: u16, length: u32) -> Party
    ensures { result ≡ named blocking tag length p }
{
    Party {
        blocking,
        tag,
        length,
        step: Step::Look,
        ..p
    }
}

// The order of a begin: 20, 11, 19, 18. A refusal is a reply with the party as it was, so there is no error to hand on.
pub fn begins(p: Party, goes: bool, closed: bool, off: bool, long: bool, begun: Party) -> Reply
    ensures { result ≡ begins p goes closed off long begun }
{
    if !goes {
        return reply(p, Answer::BadCall);
    }
    if closed {
        return reply(p, Answer::Closed);
    }
    if off {
        return reply(p, Answer::NotFullOff);
    }
    if long {
        return reply(p, Answer::PayloadTooLong);
    }
    reply(begun, Answer::Begun)
}

// What comes to a sleeper is nothing to one awake; 20 comes before 253.
pub fn rouses(p: Party, goes: bool, asleep: bool, roused: Reply) -> Reply
    ensures { result ≡ rouses p goes asleep roused }
{
    if !goes {
        return reply(p, Answer::BadCall);
    }
    if !asleep {
        return reply(p, Answer::Nothing);
    }
    roused
}
