// The check of one entry: look its key up, and judge it by what was found. That records are sound and that every row has its line is the
// store's own: no step tests it (PrewriteEntryLaws: the definition passes there).
ghost use Rattle.std.specs.Prelude.{◌≡◌, ◌+◌, ◌≤◌, length};
ghost use Rattle.rules.specs.Outcomes.{outcome};
ghost use Rattle.rules.specs.Prewrite.{same_lock, lock_step};
ghost use Rattle.store.specs.View.{box_of};
ghost use Rattle.store.specs.Views.{lock_in};
ghost use Rattle.lookups.specs.KeyStates.{locked_by};
ghost use Rattle.changes.specs.Changes.{entry_for, row_bytes};
ghost use Rattle.forms.specs.Readers.{given};
ghost use Rattle.calls.specs.Weights.{checked, EntryChecked};
ghost use Rattle.prewrites.specs.Checks.{with_primary, steps_of, LockIn, row_held, entry_steps, PartsShort, Weighs, EntryAsks};

use crate::heads::LockTerms;
use calls::{Weight, argument_step, own_step, row_stands};
use changes::{bytes_of, kind_for, lock_load};
use forms::same;
use lookups::look_up;
use rules::{Kind, Refusal};
use store::{LockView, Store};

// "own lock with any other field": primary, time to live or kind differs from the call's.
fn same_lock(l: LockView, area: &[u8], terms: LockTerms, primary: &[u8], kind: Kind) -> bool
    requires { l.at + l.len ≤ length area.now }
    ensures { result ≡ same_lock (with_primary terms primary.now) kind (lock_in area.now l) }
{
    same(&area[l.at..l.at + l.len], primary) && l.ttl == terms.ttl && l.kind == kind
}

// "a lock of another transaction or start, 7; own lock with any other field, or a Put whose stored row is missing or different, 9; own
// equal lock, accepted and unchanged": the stored row is the lock's own.
fn check_lock(
    lock: Option<LockView>,
    area: &[u8],
    terms: LockTerms,
    primary: &[u8],
    row: Option<&[u8]>,
) -> Result<(), Refusal>
    requires { LockIn (length area.now) lock }
    ensures { outcome result ≡ lock_step (with_primary terms primary.now) (given row.entry) (row_held area.now lock) (locked_by area.now lock) }
{
    own_step(lock, terms.txn, terms.start)?;
    match lock {
        None => Ok(()),
        Some(l) => {
            if !same_lock(l, area, terms, primary, kind_for(row)) {
                return Err(Refusal::Contradiction);
            }
            if !row_stands(row, area, l.rowat, l.rowlen) {
                return Err(Refusal::Contradiction);
            }
            Ok(())
        }
    }
}

// "per entry ascending: 1, 2; ..; any record stamp at or above start, 8; ..": by what was found at the key.
fn entry_step(
    below: bool,
    lock: Option<LockView>,
    area: &[u8],
    terms: LockTerms,
    primary: &[u8],
    key: &[u8],
    row: Option<&[u8]>,
) -> Result<(), Refusal>
    requires { LockIn (length area.now) lock }
    ensures { outcome result ≡ entry_steps (with_primary terms primary.now) (entry_for key.now (given row.entry)) below (row_held area.now lock) (locked_by area.now lock) }
{
    argument_step(key, row)?;
    if !below {
        return Err(Refusal::History);
    }
    check_lock(lock, area, terms, primary, row)
}

// What an entry adds: where the key has no lock, its lock and a Put's row. It frees nothing.
fn weight_of(lock: Option<LockView>, key: &[u8], primary: &[u8], row: Option<&[u8]>) -> Weight
    requires { PartsShort key.now primary.now (row_bytes (given row)) }
    ensures { Weighs key.now primary.now (given row.entry) lock result }
{
    match lock {
        None => {
            let kind = kind_for(row);
            let bytes = bytes_of(row);
            Weight {
                added: lock_load(kind, key.len(), primary.len(), bytes.len()),
                ..Weight::NONE
            }
        }
        Some(_) => Weight::NONE,
    }
}

// What an entry would add, or why it is refused.
pub fn check_entry(
    store: &Store,
    area: &[u8],
    terms: LockTerms,
    primary: &[u8],
    key: &[u8],
    row: Option<&[u8]>,
) -> Result<Weight, Refusal>
    requires { EntryAsks store.now area.now key.now primary.now (row_bytes (given row)) }
    ensures { EntryChecked (steps_of (with_primary terms primary.now)) (box_of store.now area.now) (entry_for key.now (given row.entry)) (checked result) }
{
    let found = look_up(store, area, key, terms.start, 0);
    entry_step(
        found.history.below,
        found.lock,
        area,
        terms,
        primary,
        key,
        row,
    )?;
    Ok(weight_of(found.lock, key, primary, row))
}
