// What a store keeps, and a fresh one.
ghost use Rattle.std.specs.Prelude.{◌≡◌, ◌≤◌, length};
ghost use Rattle.forms.specs.Bytes.{Bytes};
ghost use Rattle.store.specs.View.{place_of, Pairs, no_slot};
ghost use Rattle.store.specs.Made.{FreshStore};

use rules::{Kind, Load};

// The bytes of the area that is lent to every call: 49,152 live bytes, each line's numbers, and what one call brings.
pub const AREA: usize = 131072;

// A standing intent: how long its primary and its row are.
#[derive(Clone, Copy)]
pub struct LockSlot {
    pub plen: u8,
    pub rowlen: u8,
    pub kind: Kind,
}

// A finished record: how long its row is.
#[derive(Clone, Copy)]
pub struct RecordSlot {
    pub rowlen: u8,
    pub kind: Kind,
}

// "either a standing intent with its kind or a finished record"
#[derive(Clone, Copy)]
pub enum Line {
    Standing(LockSlot),
    Finished(RecordSlot),
}

// A place for a line, 8 bytes. Its stretch of the area begins after `at` pairs of bytes, so that 16 bits reach the whole area: its key of
// `len` bytes, two numbers of 8 (a lock's transaction or a record's stamp, then the start), its row, and for a lock the time to live and
// the primary.
#[derive(Clone, Copy)]
pub struct Slot {
    pub at: u16,
    pub len: u8,
    // "each with key place, used flag and line enum": document 01 names the flag beside the line
    pub used: bool,
    pub line: Line,
}

// "At most 1,024 lines (locks plus records)": the slots below the count stand in order, those past it are empty. `top` is the first byte of
// the area that no slot needs. "The floor is part of the store, begins at 0 and never falls."
#[derive(Clone, Copy)]
pub struct Store {
    pub lines: [Slot; 1024],
    pub load: Load,
    pub top: usize,
    pub floor: u64,
}

pub fn no_slot() -> Slot
    ensures { result ≡ no_slot }
{
    Slot {
        at: 0,
        len: 0,
        used: false,
        line: Line::Standing(LockSlot {
            plen: 0,
            rowlen: 0,
            kind: Kind::Put,
        }),
    }
}

// "a fresh store has none"; "The floor .. begins at 0"
pub fn fresh() -> Store
    ensures { (area : Bytes) → length area ≡ 131072 → FreshStore result area }
{
    Store {
        lines: [no_slot(); 1024],
        load: Load::NONE,
        top: 0,
        floor: 0,
    }
}

// The same for one area of the right length.
fn fresh_over(area: &[u8]) -> Store
    requires { length area.now ≡ 131072 }
    ensures { FreshStore result area.now }
{
    fresh()
}

// The same for the area that is lent, so that every later call has its premise without a proof.
pub fn open(area: &[u8; AREA]) -> Store
    ensures { FreshStore result area.now }
{
    fresh_over(area)
}

// Where the stretch of a slot begins.
pub fn place_of(s: Slot) -> usize
    ensures { result ≡ place_of s }
{
    2 * s.at as usize
}

// How many pairs of bytes `top` bytes take: the next stretch begins after them.
pub fn pairs_in(top: usize) -> usize
    requires { top ≤ 131072 }
    ensures { Pairs top result }
{
    (top + 1) / 2
}
