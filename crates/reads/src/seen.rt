// What a read and an intent at a point answer: nothing, or what is shown, by its place in the area; or a refusal. specs/Seen.antt gives the paper's
// reply of each case, the area given.
use forms::Part;
use rules::{Kind, Refusal};

// Of a read: nothing is shown, or the row that is a part of the area.
pub type RowSeen = Result<Option<Part>, Refusal>;

// What a read gives: what is seen, and "the number of write records it examined", "the refusing one included" (document 02, CR 6): so a count stands
// beside a refusal too.
#[derive(Clone, Copy)]
pub struct Reading {
    pub seen: RowSeen,
    pub count: usize,
}

// A lock as it is shown: its primary is a part of the area. Its row is not shown.
#[derive(Clone, Copy)]
pub struct ShownLock {
    pub txn: u64,
    pub start: u64,
    pub ttl: u64,
    pub kind: Kind,
    pub primary: Part,
}

// Of an intent at a point: nothing is shown, or the lock.
pub type LockSeen = Result<Option<ShownLock>, Refusal>;
