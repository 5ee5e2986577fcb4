// One line of a key changes: a lock comes, a record comes and takes the place of the key's lock, if it has one. The new bytes go past the
// top; where the slot goes is the change that comes back.
ghost use Rattle.std.specs.Prelude.{◌≡◌, ◌+◌, ◌≤◌, length};
ghost use Rattle.std.proofs.Math.Option.{none};
ghost use Rattle.rules.specs.Calls.{kind_of, record_for};
ghost use Rattle.rules.specs.Box.{lock_of};
ghost use Rattle.rules.specs.Prewrite.{lock_line};
ghost use Rattle.rules.specs.Commit.{commit_to};
ghost use Rattle.store.specs.View.{box_of};
ghost use Rattle.changes.specs.Changes.{prewrite_terms_for, entry_for, row_bytes, lock_slot, record_slot, record_over, LockAsks, SlotAsks, slot_change, RecordAsks, EndAsks, Leaves, changed, ChangeAsks};
ghost use Rattle.forms.specs.Readers.{given};

use crate::change::{Change, NewSlot};
use crate::loads::{load_after, lock_load, more};
use crate::writes::{append_ended, append_lock, append_record};
use lookups::KeyState;
use rules::{Kind, Load};
use store::{Line, LockSlot, RecordSlot, Slot, Store, pairs_in};

// The kind of an entry: a Put carries a row, a Delete none.
pub fn kind_for(row: Option<&[u8]>) -> Kind
    ensures { result ≡ kind_of (given row.entry) }
{
    match row {
        Some(_) => Kind::Put,
        None => Kind::Delete,
    }
}

// The bytes of its row.
pub fn bytes_of(row: Option<&[u8]>) -> &[u8]
    ensures { result.now ≡ row_bytes (given row.entry) }
{
    match row {
        Some(r) => r,
        None => &[],
    }
}

// The slot of a line whose stretch begins after `at` pairs of bytes, by how long its pieces are.
pub fn lock_slot(at: usize, key: usize, primary: usize, kind: Kind, row: usize) -> Slot
    requires at_bound { at ≤ 65535 }
    requires key_bound { (key ≤ 255) × (primary ≤ 255) × (row ≤ 255) }
    ensures { result ≡ lock_slot at key primary kind row }
{
    Slot {
        at: at as u16,
        len: key as u8,
        used: true,
        line: Line::Standing(LockSlot {
            plen: primary as u8,
            rowlen: row as u8,
            kind,
        }),
    }
}

pub fn record_slot(at: usize, key: usize, kind: Kind, row: usize) -> Slot
    requires at_bound { at ≤ 65535 }
    requires key_bound { (key ≤ 255) × (row ≤ 255) }
    ensures { result ≡ record_slot at key kind row }
{
    Slot {
        at: at as u16,
        len: key as u8,
        used: true,
        line: Line::Finished(RecordSlot {
            rowlen: row as u8,
            kind,
        }),
    }
}

// "a lock with the call's fields and the entry's kind", at the key's first place, "and a Put's row"; a Delete's row is empty.
pub fn put_lock(
    store: &Store,
    area: &mut [u8],
    seen: KeyState,
    key: &[u8],
    txn: u64,
    start: u64,
    ttl: u64,
    primary: &[u8],
    row: Option<&[u8]>,
) -> Change
    requires { LockAsks store.now area.old seen (prewrite_terms_for txn start primary.now ttl) key.now (given row) }
    ensures { (ChangeAsks store.now result) × (Leaves (lock_line (prewrite_terms_for txn start primary.now ttl) (entry_for key.now (given row.entry)) (box_of store.now area.old)) (store.now.top + 1 + length key.now + 8 + 8 + length (row_bytes (given row.entry)) + 8 + length primary.now) (changed store.now result) area.new) }
{
    let kind = kind_for(row);
    let bytes = bytes_of(row);
    let at = pairs_in(store.top);
    let top = append_lock(area, at + at, key, txn, start, bytes, ttl, primary);
    let added = lock_load(kind, key.len(), primary.len(), bytes.len());
    Change::Inserts(NewSlot {
        to: seen.first,
        slot: lock_slot(at, key.len(), primary.len(), kind, bytes.len()),
        load: more(store.load, added),
        top,
    })
}

// The slot of a record whose bytes stand after `at` pairs of bytes, up to `top`; the key's lock goes, if it has one.
fn place_record(
    at: usize,
    old: Load,
    seen: KeyState,
    key: usize,
    kind: Kind,
    row: usize,
    top: usize,
) -> Change
    requires { SlotAsks at old seen key kind row }
    ensures { result ≡ slot_change at old seen key kind row top }
{
    let c = NewSlot {
        to: seen.place,
        slot: record_slot(at, key, kind, row),
        load: load_after(old, seen.lock, key, kind, row),
        top,
    };
    match seen.lock {
        None => Change::Inserts(c),
        Some(_) => Change::Replaces(seen.first, c),
    }
}

// A record of the key with a Put's row; the key's lock goes, if it has one, and its row with it. A Delete's or Rollback's row is empty.
pub fn put_record(
    store: &Store,
    area: &mut [u8],
    seen: KeyState,
    key: &[u8],
    start: u64,
    stamp: u64,
    kind: Kind,
    row: &[u8],
) -> Change
    requires { RecordAsks store.now area.old seen key.now start stamp kind row.now }
    ensures { (ChangeAsks store.now result) × (Leaves (record_over key.now (record_for start stamp kind) row.now (box_of store.now area.old)) (store.now.top + 1 + length key.now + 8 + 8 + length row.now) (changed store.now result) area.new) }
{
    let at = pairs_in(store.top);
    let top = append_record(area, at + at, key, stamp, start, row);
    place_record(at, store.load, seen, key.len(), kind, row.len(), top)
}

// "a record of the lock's start and kind, stamped with the commit, replaces the lock; a Put's row stays"
pub fn end_lock(
    store: &Store,
    area: &mut [u8],
    seen: KeyState,
    key: &[u8],
    start: u64,
    commit: u64,
) -> Change
    requires { EndAsks store.now area.old seen key.now start commit }
    ensures { (ChangeAsks store.now result) × (Leaves (commit_to commit (box_of store.now area.old) key.now none (lock_of key.now (box_of store.now area.old).lines)) (store.now.top + 320) (changed store.now result) area.new) }
{
    match seen.lock {
        None => Change::Stays,
        Some(l) => {
            let at = pairs_in(store.top);
            let top = append_ended(area, at + at, key, commit, start, l.rowat, l.rowlen);
            place_record(at, store.load, seen, key.len(), l.kind, l.rowlen, top)
        }
    }
}
