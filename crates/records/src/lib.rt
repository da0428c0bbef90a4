// The script program's records: what one asks.
#![tactic(auto)]

ghost use Rattle.std.specs.Prelude.{◌≡◌, length, leb, eqb, Some, None};
ghost use Rattle.types.specs.Pick.{pick};
ghost use Rattle.records.specs.Records.{record_bytes, action_of, side_of, fields_in, move_asked, asked_at, asked_in};

use types::{Event, Side};
use words::Word;

// What a pair of kinds asks of the side that it names. Move is a push or a pop.
#[derive(Clone, Copy, PartialEq, Eq)]
pub enum Action {
    Turn,
    Spurious,
    TimeOut,
    Failing,
    Move,
    Close,
    Shutdown,
}

// What a record asks: an event of the bench, or nothing that is known.
pub type Asked = Option<Event>;

// The record's own numbers, read here and nowhere else. What is unknown is no error to tell of, so no `TryFrom`.
#[tactic(auto, unfolding(crate::specs::Records::action_of))]
pub fn action_of(pair: u8) -> Option<Action>
    ensures { result ≡ action_of pair }
{
    match pair {
        0 => Some(Action::Turn),
        1 => Some(Action::Spurious),
        2 => Some(Action::TimeOut),
        3 => Some(Action::Failing),
        4 => Some(Action::Move),
        5 => Some(Action::Close),
        6 => Some(Action::Shutdown),
        _ => None,
    }
}

pub fn side_of(kind: u8) -> Side
    ensures { result ≡ side_of kind }
{
    match kind % 2 {
        0 => Side::Sender,
        _ => Side::Recorder,
    }
}

// Whether a call blocks, by its mode.
fn blocking_in(mode: u8) -> Option<bool>
    ensures { result ≡ pick (leb mode 1) (Some (eqb mode 1)) None }
{
    match mode {
        0 => Some(false),
        1 => Some(true),
        _ => None,
    }
}

// What a record says before its payload, and where it lies; a report is laid out as a record is.
#[derive(Clone, Copy, PartialEq, Eq)]
pub struct Record {
    pub kind: u8,
    pub mode: u8,
    pub tag: u16,
    pub length: u16,
    pub error: u16,
}

impl Record {
    pub const BYTES: usize = 32;

    pub const KIND: usize = 0;

    pub const MODE: usize = 1;

    pub const TAG: usize = 2;

    pub const LENGTH: usize = 4;

    pub const ERROR: usize = 6;

    pub const PAYLOAD: usize = 8;

    pub const PAYLOAD_BYTES: usize = 24;

    // Given as a slice, since a block is cut into records by number.
    fn read(given: &[u8]) -> Self
        requires { length given.now ≡ record_bytes }
        ensures { result ≡ fields_in given.now }
    {
        Self {
            kind: u8::load(given, Self::KIND),
            mode: u8::load(given, Self::MODE),
            tag: u16::load(given, Self::TAG),
            length: u16::load(given, Self::LENGTH),
            error: u16::load(given, Self::ERROR),
        }
    }

    pub fn move_asked(self, side: Side) -> Asked
        ensures { result ≡ move_asked side self }
    {
        let blocking = blocking_in(self.mode)?;
        let length = u32::from(self.length);
        match side {
            Side::Sender => Some(Event::Push(blocking, self.tag, length)),
            Side::Recorder => {
                let fits = usize::from(self.length) <= Self::PAYLOAD_BYTES;
                fits.then_some(Event::Pop(blocking, length))
            }
        }
    }

    pub fn asked_at(self, action: Action, side: Side) -> Asked
        ensures { result ≡ asked_at action side self }
    {
        match action {
            Action::Turn => Some(Event::Turn(side)),
            Action::Spurious => Some(Event::Spurious(side)),
            Action::TimeOut => Some(Event::TimeOut(side)),
            Action::Failing => Some(Event::Failing(side, self.error)),
            Action::Move => self.move_asked(side),
            Action::Close => Some(Event::Close(side)),
            Action::Shutdown => Some(Event::Shutdown(side)),
        }
    }
}

#[tactic(auto, unfolding(crate::specs::Records::asked_in))]
pub fn asked_in(given: &[u8]) -> Asked
    requires { length given.now ≡ record_bytes }
    ensures { result ≡ asked_in given.now }
{
    let record = Record::read(given);
    record.asked_at(action_of(record.kind / 2)?, side_of(record.kind))
}
