// A line, read from its stretch of the area; and how its key stands to another.
ghost use Rattle.std.specs.Prelude.{◌≡◌, ◌+◌, ◌≤◌, length};
ghost use Rattle.forms.specs.Bytes.{cmp};
ghost use Rattle.store.specs.View.{eight_at, past, place_of, key_of};
ghost use Rattle.store.specs.Views.{lock_view, record_view, view_of};

use crate::table::{Line, LockSlot, RecordSlot, Slot, place_of};
use forms::Width;
use rules::Kind;
use std::cmp::Ordering;

// A standing intent. Its primary is the `len` bytes of the area from `at`, a Put's row the `rowlen` bytes from `rowat`.
#[derive(Clone, Copy)]
pub struct LockView {
    pub txn: u64,
    pub start: u64,
    pub ttl: u64,
    pub at: usize,
    pub len: usize,
    pub kind: Kind,
    pub rowat: usize,
    pub rowlen: usize,
}

// A finished record: its commit is its stamp.
#[derive(Clone, Copy)]
pub struct RecordView {
    pub stamp: u64,
    pub start: u64,
    pub kind: Kind,
    pub rowat: usize,
    pub rowlen: usize,
}

#[derive(Clone, Copy)]
pub enum LineView {
    Standing(LockView),
    Finished(RecordView),
}

pub fn eight_at(area: &[u8], at: usize) -> u64
    requires { at + 8 ≤ length area.now }
    ensures { result ≡ eight_at area.now at }
{
    forms::number_at(&area[at..at + 8], 0, Width::Eight).unwrap()
}

fn lock_view(l: LockSlot, area: &[u8], at: usize) -> LockView
    requires { at + 8 + 8 + l.rowlen + 8 ≤ length area.now }
    ensures { result ≡ lock_view area.now at l }
{
    let next = at + 8;
    let row = next + 8;
    let size = l.rowlen as usize;
    let mid = row + size;
    LockView {
        txn: eight_at(area, at),
        start: eight_at(area, next),
        ttl: eight_at(area, mid),
        at: mid + 8,
        len: l.plen as usize,
        kind: l.kind,
        rowat: row,
        rowlen: size,
    }
}

fn record_view(w: RecordSlot, area: &[u8], at: usize) -> RecordView
    requires { at + 8 + 8 ≤ length area.now }
    ensures { result ≡ record_view area.now at w }
{
    let next = at + 8;
    RecordView {
        stamp: eight_at(area, at),
        start: eight_at(area, next),
        kind: w.kind,
        rowat: next + 8,
        rowlen: w.rowlen as usize,
    }
}

pub fn view_of(s: Slot, area: &[u8]) -> LineView
    requires { place_of s + s.len + past s.line ≤ length area.now }
    ensures { result ≡ view_of area.now s }
{
    let at = place_of(s) + s.len as usize;
    match s.line {
        Line::Standing(l) => LineView::Standing(lock_view(l, area, at)),
        Line::Finished(w) => LineView::Finished(record_view(w, area, at)),
    }
}

// How the key of a slot stands to `key`.
pub fn slot_order(s: Slot, area: &[u8], key: &[u8]) -> Ordering
    requires { place_of s + s.len ≤ length area.now }
    ensures { result ≡ cmp (key_of area.now s) key.now }
{
    let at = place_of(s);
    forms::compare(&area[at..at + s.len as usize], key)
}

// How many bytes a line has past its key.
pub fn past_key(line: Line) -> usize
    ensures { result ≡ past line }
{
    match line {
        Line::Standing(l) => 8 + 8 + l.rowlen as usize + 8 + l.plen as usize,
        Line::Finished(w) => 8 + 8 + w.rowlen as usize,
    }
}
