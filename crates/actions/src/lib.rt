// One entry of a changing call, applied after its checks have passed, by what stands at its key: write the bytes, and say the change of the
// table. What is there already stays as it is.
#![tactic(auto)]

ghost use Rattle.std.specs.Prelude.{◌+◌};
ghost use Rattle.rules.specs.Prewrite.{apply_prewrite};
ghost use Rattle.rules.specs.Commit.{apply_commit};
ghost use Rattle.rules.specs.Rollback.{apply_rollback};
ghost use Rattle.rules.specs.OneStep.{apply_step};
ghost use Rattle.store.specs.View.{box_of};
ghost use Rattle.lookups.specs.KeyStates.{KeyStateAt};
ghost use Rattle.changes.specs.Changes.{prewrite_terms_for, entry_for, changed, ChangeAsks};
ghost use Rattle.forms.specs.Readers.{given};
ghost use Rattle.actions.specs.EntryAsks.{PrewriteAsks, CommitAsks, RollbackAsks, StepAsks, Applied};
ghost use Rattle.actions.specs.Actions.{point_of, most_of, apply_of, EntryAsks};

pub mod action;

pub use action::{Action, Point, most_of, point_of};
use changes::{Change, bytes_of, end_lock, kind_for, put_lock, put_record};
use lookups::KeyState;
use rules::{CommitTerms, Kind};
use store::Store;

// "Each entry not yet locked gets a lock .., and a Put's row is stored at this start"
fn apply_prewrite(
    store: &Store,
    area: &mut [u8],
    seen: KeyState,
    txn: u64,
    start: u64,
    ttl: u64,
    primary: &[u8],
    key: &[u8],
    row: Option<&[u8]>,
) -> Change
    requires { (PrewriteAsks store.now area.old (prewrite_terms_for txn start primary.now ttl) key.now (given row)) × (KeyStateAt store.now area.old key.now start 0 seen) }
    ensures { (ChangeAsks store.now result) × (Applied store.now area.old (apply_prewrite (prewrite_terms_for txn start primary.now ttl) (entry_for key.now (given row.entry)) (box_of store.now area.old)) (store.now.top + 376) (changed store.now result) area.new) }
{
    match seen.lock {
        None => put_lock(store, area, seen, key, txn, start, ttl, primary, row),
        Some(_) => Change::Stays,
    }
}

// "a record of the lock's start and kind, stamped with the commit, replaces the lock; a Put's row stays"
fn apply_commit(
    store: &Store,
    area: &mut [u8],
    seen: KeyState,
    terms: CommitTerms,
    key: &[u8],
) -> Change
    requires { (CommitAsks store.now area.old terms key.now) × (KeyStateAt store.now area.old key.now terms.start terms.commit seen) }
    ensures { (ChangeAsks store.now result) × (Applied store.now area.old (apply_commit terms key.now (box_of store.now area.old)) (store.now.top + 320) (changed store.now result) area.new) }
{
    match seen.history.started {
        None => end_lock(store, area, seen, key, terms.start, terms.commit),
        Some(_) => Change::Stays,
    }
}

// "Lock and its row go, a Rollback record comes"
fn apply_rollback(
    store: &Store,
    area: &mut [u8],
    seen: KeyState,
    txn: u64,
    start: u64,
    key: &[u8],
) -> Change
    requires { (RollbackAsks store.now area.old txn start key.now) × (KeyStateAt store.now area.old key.now start start seen) }
    ensures { (ChangeAsks store.now result) × (Applied store.now area.old (apply_rollback start key.now (box_of store.now area.old)) (store.now.top + 65) (changed store.now result) area.new) }
{
    match seen.history.stamped {
        None => put_record(
            store,
            area,
            seen,
            key,
            start,
            start,
            Kind::Rollback,
            &key[0..0],
        ),
        Some(_) => Change::Stays,
    }
}

// "Each entry gets a record of this start and its kind, stamped with the commit; a Put's row is stored ..; an own lock goes"
fn apply_step(
    store: &Store,
    area: &mut [u8],
    seen: KeyState,
    terms: CommitTerms,
    key: &[u8],
    row: Option<&[u8]>,
) -> Change
    requires { (StepAsks store.now area.old terms key.now (given row)) × (KeyStateAt store.now area.old key.now terms.start terms.commit seen) }
    ensures { (ChangeAsks store.now result) × (Applied store.now area.old (apply_step terms (entry_for key.now (given row.entry)) (box_of store.now area.old)) (store.now.top + 320) (changed store.now result) area.new) }
{
    let kind = kind_for(row);
    let bytes = bytes_of(row);
    put_record(
        store,
        area,
        seen,
        key,
        terms.start,
        terms.commit,
        kind,
        bytes,
    )
}

// One entry, as its call applies it.
pub fn apply_entry(
    store: &Store,
    area: &mut [u8],
    seen: KeyState,
    action: Action,
    primary: &[u8],
    key: &[u8],
    row: Option<&[u8]>,
) -> Change
    requires { (EntryAsks action primary.now store.now area.old key.now (given row)) × (KeyStateAt store.now area.old key.now (point_of action).start (point_of action).stamp seen) }
    ensures { (ChangeAsks store.now result) × (Applied store.now area.old (apply_of action primary.now (entry_for key.now (given row.entry)) (box_of store.now area.old)) (store.now.top + most_of action) (changed store.now result) area.new) }
{
    match action {
        Action::Prewrite { txn, start, ttl } => {
            apply_prewrite(store, area, seen, txn, start, ttl, primary, key, row)
        }
        Action::Commit(terms) => apply_commit(store, area, seen, terms, key),
        Action::Rollback { txn, start } => apply_rollback(store, area, seen, txn, start, key),
        Action::Step(terms) => apply_step(store, area, seen, terms, key, row),
    }
}
