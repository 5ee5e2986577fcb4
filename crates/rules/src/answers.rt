// "What a call answers": accepted, or why the call refuses. specs/Outcomes.antt gives the paper's number and values of each case.
ghost use Rattle.std.specs.Prelude.{◌≡◌};
ghost use Rattle.rules.specs.Answers.{number};
ghost use Rattle.rules.specs.Outcomes.{refusal, holder_in};

use crate::records::Kind;

// "Answer 7 carries the holder's transaction and start", and "the lock's time to live and kind" (document 02, CR 9).
#[derive(Clone, Copy, PartialEq, Eq)]
pub struct Holder {
    pub txn: u64,
    pub start: u64,
    pub ttl: u64,
    pub kind: Kind,
}

// Why a call refuses, in the order of the paper's numbers, 1 to 14.
#[derive(Clone, Copy, PartialEq, Eq)]
pub enum Refusal {
    // "key not in form"
    KeyForm,
    // "row argument not in form"
    RowForm,
    // "zero transaction, start, time to live, row, lock or byte limit; commit not above start"
    Argument,
    // "scan start not below scan end"
    ScanRange,
    // "empty batch where one entry is needed"
    EmptyBatch,
    // "batch not in form"
    BatchForm,
    // "key locked by another, or at or before the reading moment"
    Locked(Holder),
    // "history forbids it"
    History,
    // "stored state contradicts the call or itself"
    Contradiction,
    // "byte limit below the first entry"
    ByteLimit,
    // "no room"
    NoRoom,
    // "lent buffer shorter than the page"
    ShortBuffer,
    // "image refused"
    BadImage,
    // "below the floor" (document 02, CR 7)
    BelowFloor,
}

impl Refusal {
    // The paper's number.
    pub fn number(self) -> u8
        ensures { result ≡ number (refusal self) }
    {
        match self {
            Refusal::KeyForm => 1,
            Refusal::RowForm => 2,
            Refusal::Argument => 3,
            Refusal::ScanRange => 4,
            Refusal::EmptyBatch => 5,
            Refusal::BatchForm => 6,
            Refusal::Locked(_) => 7,
            Refusal::History => 8,
            Refusal::Contradiction => 9,
            Refusal::ByteLimit => 10,
            Refusal::NoRoom => 11,
            Refusal::ShortBuffer => 12,
            Refusal::BadImage => 13,
            Refusal::BelowFloor => 14,
        }
    }

    // Who holds the lock, of answer 7.
    pub fn holder(self) -> Option<Holder>
        ensures { result ≡ holder_in self }
    {
        match self {
            Refusal::Locked(holder) => Some(holder),
            _ => None,
        }
    }
}
