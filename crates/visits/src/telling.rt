// Words for standard output: what a call answered, a key's name, a row's label. Any answer and any bytes can be told. Where a write fails the program
// goes on.
ghost use Rattle.forms.specs.Places.{PartAt};
ghost use Rattle.visits.specs.Labels.{text_place};

use forms::Part;
use mvcc::{Holder, Kind, Refusal};
use std::fmt;

// "What a call answers": the paper's words for each number.
fn meaning(refusal: Refusal) -> &'static str {
    match refusal {
        Refusal::KeyForm => "key not in form",
        Refusal::RowForm => "row argument not in form",
        Refusal::Argument => "a zero, a commit not above its start, or a bone past the count",
        Refusal::ScanRange => "scan start not below scan end",
        Refusal::EmptyBatch => "empty batch",
        Refusal::BatchForm => "batch not in form",
        Refusal::Locked(_) => "key locked",
        Refusal::History => "history forbids it",
        Refusal::Contradiction => "stored state contradicts the call or itself",
        Refusal::ByteLimit => "byte limit below the first entry",
        Refusal::NoRoom => "no room",
        Refusal::ShortBuffer => "lent buffer shorter than the page",
        Refusal::BadImage => "image refused",
        Refusal::BelowFloor => "below the floor",
    }
}

// What a lock is for, by its kind: "1 Put, 2 Delete".
fn purpose(kind: Kind) -> &'static str {
    match kind {
        Kind::Put => "a new label",
        Kind::Delete => "a removal",
        Kind::Rollback => "no kind of the paper",
    }
}

// Who holds the key, since when and for what, and how long the lock is to stand.
#[derive(Clone, Copy)]
struct Held(Holder);

impl fmt::Display for Held {
    fn fmt<W: fmt::Write>(&self, f: &mut fmt::Formatter<W>) -> fmt::Result {
        let Holder {
            txn,
            start,
            ttl,
            kind,
        } = self.0;
        let purpose = purpose(kind);
        write!(
            f,
            " by curator {txn} since {start} for {purpose}, time to live {ttl}"
        )
    }
}

// The number of a refusal and what it means; of a locked key who holds it.
#[derive(Clone, Copy)]
struct Refused(Refusal);

impl fmt::Display for Refused {
    fn fmt<W: fmt::Write>(&self, f: &mut fmt::Formatter<W>) -> fmt::Result {
        let number = self.0.number();
        let meaning = meaning(self.0);
        write!(f, "refused, {number}: {meaning}")?;
        match self.0.holder() {
            Some(holder) => write!(f, "{}", Held(holder)),
            None => Ok(()),
        }
    }
}

pub fn say_refusal(rt: &impl Print, refusal: Refusal) {
    let _ = println!(rt; "{}", Refused(refusal));
}

pub fn say_answer(rt: &impl Print, answer: Result<(), Refusal>) {
    match answer {
        Ok(()) => {
            let _ = println!(rt; "accepted");
        }
        Err(refusal) => say_refusal(rt, refusal),
    }
}

// Names, labels and the words before the figures are any bytes. A `Display` writes text alone, so they go out as they are.
pub(crate) fn say_bytes(rt: &impl Print, bytes: &[u8]) {
    let _ = rt.write_all(bytes);
}

// A key is its table's number in 4 bytes, and then a name.
pub fn say_name(rt: &impl Print, key: &[u8]) {
    if let Some(name) = key.get(4..) {
        say_bytes(rt, name);
    }
}

// Where a row's first text lies: past both counts and the integers.
fn first_text(row: &[u8]) -> Option<Part>
    ensures { PartAt row.now (text_place row.now) result }
{
    let integers = row.first().copied().unwrap_or(0);
    forms::part_at(row, 2 + 8 * integers as usize)
}

// The label of a row is its first text.
pub fn say_label(rt: &impl Print, row: &[u8]) {
    let _ = print!(rt; "\"");
    if let Some(text) = first_text(row) {
        say_bytes(rt, text.of(row));
    }
    let _ = println!(rt; "\"");
}
