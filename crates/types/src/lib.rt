// The declared types: a party and what it is told. One party struct and one step enum serve both sides.
#![tactic(auto)]

ghost use Rattle.std.specs.Prelude.{◌≡◌, Ok, Err};
ghost use Rattle.types.specs.Answers.{told_of};
ghost use Rattle.types.specs.Pick.{pick};
ghost use Rattle.types.specs.Refusals.{refused_with, answered};

#[derive(Clone, Copy, PartialEq, Eq)]
pub enum Side {
    Sender,
    Recorder,
}

// NotEmpty is bell NE, on which the recorder sleeps; NotFull is bell NF, on which the sender sleeps.
#[derive(Clone, Copy, PartialEq, Eq)]
pub enum Bell {
    NotEmpty,
    NotFull,
}

// A flag bit that a party sets.
#[derive(Clone, Copy, PartialEq, Eq)]
pub enum Mark {
    SenderAttached,
    RecorderAttached,
    SenderClosed,
    RecorderClosed,
    Shutdown,
}

// Where a party stands. Both sides walk the same steps: Look is P1 and C1, Copy P2 and C2, Publish P3 and C3, Check P4
// and C4, Raise P5 and C5, Wake P6 and C6, Gate B1 and W1, Spin a look after these, Epoch B2 and W2, Again B3 and W3,
// GateAgain B4 and W4, Wait B5 and W5, LastLook B6 and W6, the look before 11 or 13 is answered. A step carries what
// later turns need of earlier ones: from Publish to Wake the length and the tag of the note that a pop took, at a spin
// how many more follow it, from Again to Wait the epoch, at a last look whether a time-out led to it, in a shutdown
// whether corruption began it and, from its second raise on, the first error.
#[derive(Clone, Copy, PartialEq, Eq)]
pub enum Step {
    Rest,
    Look,
    Copy,
    Publish(u16, u16),
    Check(u16, u16),
    Raise(u16, u16),
    Wake(u16, u16),
    Gate,
    Spin(u16),
    Epoch,
    Again(u32),
    GateAgain(u32),
    Wait(u32),
    Asleep,
    LastLook(bool),
    CloseSet,
    CloseRaise,
    CloseWake,
    ShutSet(bool),
    ShutRaiseNe(bool),
    ShutWakeNe(bool),
    ShutRaiseNf(bool, u16),
    ShutWakeNf(bool, u16),
}

// What a party keeps from its attach on: its own copy of sizes and options, never read from the region again, and how
// often it spins before it sleeps. `attached` is a flag and no Option round the others: a record may be lent with whatever
// terms, attached or not, and 20 tests them one by one (`sound`).
#[derive(Clone, Copy, PartialEq, Eq)]
pub struct Own {
    pub side: Side,
    pub attached: bool,
    pub power: u8,
    pub slot: u32,
    pub notfull: bool,
    pub spins: u16,
}

// A party's record. The tag is a push's; the length is a push's payload or a pop's buffer.
#[derive(Clone, Copy, PartialEq, Eq)]
pub struct Party {
    pub own: Own,
    pub closed: bool,
    pub counter: u64,
    pub blocking: bool,
    pub tag: u16,
    pub length: u32,
    pub step: Step,
}

// A slot's own header.
#[derive(Clone, Copy, PartialEq, Eq)]
pub struct SlotHead {
    pub length: u16,
    pub tag: u16,
    pub flags: u16,
    pub zero: u16,
}

// Document 01's answers. Done carries the length and the tag of the note that a pop took, and zeros for every other
// call; OutputTooSmall the length needed; Syscall the operation's number, as `told_of` has it for any, and its error.
#[derive(Clone, Copy, PartialEq, Eq)]
pub enum Answer {
    Done(u16, u16),
    InvalidMagic,
    UnsupportedVersion,
    InvalidHeaderSize,
    InvalidLayout,
    InvalidCapacity,
    InvalidSlotSize,
    CorruptIndices,
    CorruptSlot,
    Full,
    Empty,
    Closed,
    Shutdown,
    Timeout,
    WouldBlock,
    OutputTooSmall(u16),
    AlreadyAttached,
    Syscall(u8, u16),
    PayloadTooLong,
    NotFullOff,
    BadCall,
    Nothing,
    Begun,
    GoesOn,
}

// The one shared access of a turn, with its word and its value. A slot is named by the counter that it belongs to, a wake
// by its bell and how many it wakes. None is one row of eleven: an Option would put Some into the ten others of each table.
#[derive(Clone, Copy, PartialEq, Eq)]
pub enum Access {
    None,
    LoadCounter(Side),
    LoadFlags,
    LoadBell(Bell),
    WriteSlot(u64),
    ReadSlot(u64),
    StoreCounter(Side, u64),
    RaiseBell(Bell),
    SetFlag(Mark),
    WaitBell(Bell, u32),
    WakeBell(Bell, u32),
}

// What the counters say to a side: used above the capacity; nothing to do for it (full, or empty); something.
#[derive(Clone, Copy, PartialEq, Eq)]
pub enum Room {
    Corrupt,
    Blocked,
    Free,
}

// What the flags say to a side: shut down; the other closed; neither.
#[derive(Clone, Copy, PartialEq, Eq)]
pub enum Door {
    Shut,
    Left,
    Open,
}

// What a slot's length says to a pop: above the payload capacity; above the buffer's length; neither. The length and the tag
// stand beside it, as in the definitions.
#[derive(Clone, Copy, PartialEq, Eq)]
pub enum Fit {
    Bad,
    Small,
    Fits,
}

// How a wait ends: asleep; as a spurious return; as a time-out; failed. The error stands beside it, as in the definitions.
#[derive(Clone, Copy, PartialEq, Eq)]
pub enum Nap {
    Sleeps,
    Returns,
    TimedOut,
    Fails,
}

// Where a turn leads: nowhere; to another step; to rest, with the call's answer.
#[derive(Clone, Copy, PartialEq, Eq)]
pub enum Move {
    Still,
    To(Step),
    End(Answer),
}

// Why a region is not created, or not joined: answers that are refusals, so that an error can be nothing else.
#[derive(Clone, Copy, PartialEq, Eq)]
pub enum Refusal {
    InvalidMagic,
    UnsupportedVersion,
    InvalidHeaderSize,
    InvalidLayout,
    InvalidCapacity,
    InvalidSlotSize,
    WouldBlock,
    AlreadyAttached,
    BadCall,
}

impl From<Refusal> for Answer {
    ghost from_gives = { λ r a. a ≡ refused_with r };

    fn from(refusal: Refusal) -> Answer {
        match refusal {
            Refusal::InvalidMagic => Answer::InvalidMagic,
            Refusal::UnsupportedVersion => Answer::UnsupportedVersion,
            Refusal::InvalidHeaderSize => Answer::InvalidHeaderSize,
            Refusal::InvalidLayout => Answer::InvalidLayout,
            Refusal::InvalidCapacity => Answer::InvalidCapacity,
            Refusal::InvalidSlotSize => Answer::InvalidSlotSize,
            Refusal::WouldBlock => Answer::WouldBlock,
            Refusal::AlreadyAttached => Answer::AlreadyAttached,
            Refusal::BadCall => Answer::BadCall,
        }
    }
}

impl Refusal {
    // A test that must hold, and the refusal where it does not.
    pub fn unless(self, holds: bool) -> Result<(), Refusal>
        ensures { result ≡ pick holds (Ok tt) (Err self) }
    {
        if holds { Ok(()) } else { Err(self) }
    }
}

// A call that is done has no values to give.
impl From<Result<(), Refusal>> for Answer {
    ghost from_gives = { λ r a. a ≡ answered r };

    fn from(outcome: Result<(), Refusal>) -> Answer {
        match outcome {
            Ok(()) => Answer::Done(0, 0),
            Err(refusal) => refusal.into(),
        }
    }
}

// What is to be known of a step apart from its turn.
#[derive(Clone, Copy, PartialEq, Eq)]
pub enum Stance {
    Resting,
    Sleeping,
    Copying,
    Publishing,
    Closing,
    Moving,
}

// The error with which the turn's futex call is announced to fail, if it is.
pub type Fault = Option<u16>;

// What a call or a turn gives back.
#[derive(Clone, Copy, PartialEq, Eq)]
pub struct Reply {
    pub party: Party,
    pub answer: Answer,
}

// The same, and whom the turn woke: side by side, as the definitions of a turn have the three.
#[derive(Clone, Copy, PartialEq, Eq)]
pub struct Turned {
    pub party: Party,
    pub answer: Answer,
    pub woke: Option<Bell>,
}

// Both parties, with their sleeping places.
#[derive(Clone, Copy, PartialEq, Eq)]
pub struct Bench {
    pub sender: Party,
    pub recorder: Party,
}

#[derive(Clone, Copy, PartialEq, Eq)]
pub struct Played {
    pub bench: Bench,
    pub answer: Answer,
}

// What happens on a bench: a turn, its futex call failing with an error or not; what comes to a sleeper; a begin. A push
// names whether it blocks, a tag and a length, a pop whether it blocks and its buffer's length.
#[derive(Clone, Copy, PartialEq, Eq)]
pub enum Event {
    Turn(Side),
    Failing(Side, u16),
    Spurious(Side),
    TimeOut(Side),
    Push(bool, u16, u32),
    Pop(bool, u32),
    Close(Side),
    Shutdown(Side),
}

// An answer as numbers. The operation of a failed futex call stands in the tag's place.
#[derive(Clone, Copy, PartialEq, Eq)]
pub struct Told {
    pub number: u8,
    pub tag: u16,
    pub length: u16,
    pub error: u16,
}

fn with_values(number: u8, tag: u16, length: u16, error: u16) -> Told
    ensures { result ≡ record { number = number; tag = tag; length = length; error = error } }
{
    Told {
        number,
        tag,
        length,
        error,
    }
}

// Document 01's number of an answer, with the values that it carries.
impl From<Answer> for Told {
    ghost from_gives = { λ a t. t ≡ told_of a };

    fn from(answer: Answer) -> Told {
        match answer {
            Answer::Done(length, tag) => with_values(0, tag, length, 0),
            Answer::InvalidMagic => with_values(1, 0, 0, 0),
            Answer::UnsupportedVersion => with_values(2, 0, 0, 0),
            Answer::InvalidHeaderSize => with_values(3, 0, 0, 0),
            Answer::InvalidLayout => with_values(4, 0, 0, 0),
            Answer::InvalidCapacity => with_values(5, 0, 0, 0),
            Answer::InvalidSlotSize => with_values(6, 0, 0, 0),
            Answer::CorruptIndices => with_values(7, 0, 0, 0),
            Answer::CorruptSlot => with_values(8, 0, 0, 0),
            Answer::Full => with_values(9, 0, 0, 0),
            Answer::Empty => with_values(10, 0, 0, 0),
            Answer::Closed => with_values(11, 0, 0, 0),
            Answer::Shutdown => with_values(12, 0, 0, 0),
            Answer::Timeout => with_values(13, 0, 0, 0),
            Answer::WouldBlock => with_values(14, 0, 0, 0),
            Answer::OutputTooSmall(length) => with_values(15, 0, length, 0),
            Answer::AlreadyAttached => with_values(16, 0, 0, 0),
            Answer::Syscall(operation, error) => with_values(17, u16::from(operation), 0, error),
            Answer::PayloadTooLong => with_values(18, 0, 0, 0),
            Answer::NotFullOff => with_values(19, 0, 0, 0),
            Answer::BadCall => with_values(20, 0, 0, 0),
            Answer::Nothing => with_values(253, 0, 0, 0),
            Answer::Begun => with_values(254, 0, 0, 0),
            Answer::GoesOn => with_values(255, 0, 0, 0),
        }
    }
}
