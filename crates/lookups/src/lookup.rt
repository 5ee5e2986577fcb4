// What stands at a key, as every call asks of it: its lock, and what its records say to a start and to a stamp. A search by halves for
// its first line, then a walk over its lines.
ghost use Rattle.std.specs.Prelude.{◌≡◌, ◌<◌};
ghost use Rattle.laws.specs.Places.{lines_before};
ghost use Rattle.store.specs.Made.{Built};
ghost use Rattle.store.specs.View.{box_of};
ghost use Rattle.lookups.specs.KeyStates.{first_found, sight_after, history_after, nothing_at, see_line, KeyStateAt};

use rules::Kind;
use std::cmp::Ordering;
use store::{LineView, LockView, RecordView, Store, slot_order, view_of};

// What the records of a key say to a start and a stamp.
#[derive(Clone, Copy)]
pub struct History {
    // each is stamped below the start
    pub below: bool,
    // the stamp is newer than each
    pub above: bool,
    // the record with this start
    pub started: Option<RecordView>,
    // the record at the stamp
    pub stamped: Option<RecordView>,
    // the newest at or below the stamp that is no Rollback: what a read sees
    pub visible: Option<RecordView>,
    // that one, and the Rollbacks above it at or below the stamp: how many a read examines
    pub examined: usize,
}

// What stands at a key: the place of its first line, the place of a record of the key at the stamp, its lock and its history.
#[derive(Clone, Copy)]
pub struct KeyState {
    pub first: usize,
    pub place: usize,
    pub lock: Option<LockView>,
    pub history: History,
}

// Keep the first match.
fn first_found(old: Option<RecordView>, hit: bool, w: RecordView) -> Option<RecordView>
    ensures { result ≡ first_found old hit w }
{
    old.or(hit.then_some(w))
}

// What a read at the moment sees, and how many records it examines: "from the newest at or below the moment downward: Rollback, go on". The walk
// goes upward, so each record that is no Rollback counts anew.
fn sight_after(
    visible: Option<RecordView>,
    examined: usize,
    moment: u64,
    w: RecordView,
) -> (Option<RecordView>, usize)
    requires { examined < 1024 }
    ensures { result ≡ sight_after visible examined moment w }
{
    if moment < w.stamp {
        return (visible, examined);
    }
    match w.kind {
        Kind::Put | Kind::Delete => (Some(w), 1),
        Kind::Rollback => (visible, examined + 1),
    }
}

// One record more.
fn see_record(h: History, w: RecordView, start: u64, stamp: u64) -> History
    requires { h.examined < 1024 }
    ensures { result ≡ history_after start stamp h w }
{
    let (visible, examined) = sight_after(h.visible, h.examined, stamp, w);
    History {
        below: h.below && w.stamp < start,
        above: h.above && w.stamp < stamp,
        started: first_found(h.started, start == w.start, w),
        stamped: first_found(h.stamped, stamp == w.stamp, w),
        visible,
        examined,
    }
}

// Before the first line of the key.
fn nothing_at(first: usize) -> KeyState
    ensures { result ≡ nothing_at first }
{
    KeyState {
        first,
        place: first,
        lock: None,
        history: History {
            below: true,
            above: true,
            started: None,
            stamped: None,
            visible: None,
            examined: 0,
        },
    }
}

// One line more of the key, before the place `next`.
fn see(seen: KeyState, line: LineView, start: u64, stamp: u64, next: usize) -> KeyState
    requires { seen.history.examined < 1024 }
    ensures { result ≡ see_line start stamp next seen line }
{
    match line {
        LineView::Standing(l) => KeyState {
            place: next,
            lock: Some(l),
            ..seen
        },
        LineView::Finished(w) => KeyState {
            place: if w.stamp < stamp { next } else { seen.place },
            history: see_record(seen.history, w, start, stamp),
            ..seen
        },
    }
}

// "The lookup that finds a key's first line shall halve its range." So 11 rounds leave nothing of a full table, 1,024 lines.
const ROUNDS: usize = 11;

// The place of the key's first line, or where one would stand. The search compares one key a round and takes one of the rounds for it. It is
// proved that each time one is left, so nothing tests for it, and the compiler leaves the count out.
fn first_line(store: &Store, area: &[u8], key: &[u8]) -> usize
    requires { Built store.now area.now }
    ensures { result ≡ lines_before key.now (box_of store.now area.now).lines }
{
    let mut low = 0;
    let mut high = store.load.lines;
    let mut rounds = ROUNDS;
    // a `while`, since a search by halves has no index that counts
    while low < high {
        rounds -= 1;
        let mid = low + (high - low) / 2;
        match slot_order(store.lines[mid], area, key) {
            Ordering::Less => low = mid + 1,
            Ordering::Equal => high = mid,
            Ordering::Greater => high = mid,
        }
    }
    low
}

// The walk begins at the key's first line and ends at the first line of another key.
pub fn look_up(store: &Store, area: &[u8], key: &[u8], start: u64, stamp: u64) -> KeyState
    requires { Built store.now area.now }
    ensures { KeyStateAt store.now area.now key.now start stamp result }
{
    let first = first_line(store, area, key);
    let mut seen = nothing_at(first);
    for i in first..store.load.lines {
        let s = store.lines[i];
        match slot_order(s, area, key) {
            Ordering::Equal => seen = see(seen, view_of(s, area), start, stamp, i + 1),
            Ordering::Less | Ordering::Greater => return seen,
        }
    }
    seen
}
