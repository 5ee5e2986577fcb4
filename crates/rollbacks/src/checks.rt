// The check of one key: look it up, and judge it by what was found. That records are sound, that a start has one line of a key, and that
// every row has its line is the store's own: no step tests it (RollbackKeyLaws: the definition passes there).
ghost use Rattle.std.specs.Prelude.{◌≡◌};
ghost use Rattle.forms.specs.Bytes.{Bytes};
ghost use Rattle.rules.specs.Outcomes.{outcome};
ghost use Rattle.store.specs.View.{box_of};
ghost use Rattle.lookups.specs.KeyStates.{said, locked_by};
ghost use Rattle.calls.specs.Weights.{checked, EntryChecked};
ghost use Rattle.rollbacks.specs.Checks.{steps_of, rolled_by, stamped_step, key_steps, weight_of, WeightAsks, KeyAsks};

use calls::{Weight, own_step};
use changes::{freed_by, record_load};
use forms::key_in_form;
use lookups::{History, look_up};
use rules::{Kind, Refusal};
use store::{LockView, RecordView, Store};

// The record with this start, if the key has one, is a Rollback.
fn rolled_by(started: Option<RecordView>) -> bool
    ensures { result ≡ rolled_by (said started) }
{
    started.is_none_or(|w| w.kind == Kind::Rollback)
}

// "a record stamped with this start that is not its Rollback, 9; its Rollback .., accepted and unchanged; another's lock 7"
#[tactic(auto, using(laws::proofs::ChainLaws::chain))]
fn stamped_step(
    at: Option<RecordView>,
    lock: Option<LockView>,
    txn: u64,
    start: u64,
) -> Result<(), Refusal>
    ensures { (area : Bytes) → outcome result ≡ stamped_step txn start (locked_by area lock) (said at) }
{
    match at {
        None => own_step(lock, txn, start),
        Some(w) if w.start == start => Ok(()),
        Some(_) => Err(Refusal::Contradiction),
    }
}

// "1; records by ascending stamp, .. with this start and not Rollback 8; ..": by what was found at the key. All records are walked before the
// one that is stamped with this start is judged, so 8 comes before 9.
#[tactic(auto, using(laws::proofs::ChainLaws::chain))]
fn key_step(
    history: History,
    lock: Option<LockView>,
    txn: u64,
    start: u64,
    key: &[u8],
) -> Result<(), Refusal>
    ensures { (area : Bytes) → outcome result ≡ key_steps txn start key.now (said history.started) (said history.stamped) (locked_by area lock) }
{
    if !key_in_form(key) {
        return Err(Refusal::KeyForm);
    }
    if !rolled_by(history.started) {
        return Err(Refusal::History);
    }
    stamped_step(history.stamped, lock, txn, start)
}

// "Lock and its row go, a Rollback record comes": what that adds and frees. A key that has its Rollback adds and frees nothing.
fn weight_of(at: Option<RecordView>, lock: Option<LockView>, key: usize) -> Weight
    requires { WeightAsks lock key }
    ensures { result ≡ weight_of at lock key }
{
    match at {
        Some(_) => Weight::NONE,
        None => Weight {
            added: record_load(Kind::Rollback, key, 0),
            freed: freed_by(lock, key),
        },
    }
}

// What a key would add and free, or why it is refused.
pub fn check_key(
    store: &Store,
    area: &[u8],
    txn: u64,
    start: u64,
    key: &[u8],
) -> Result<Weight, Refusal>
    requires { KeyAsks store.now area.now key.now }
    ensures { EntryChecked (steps_of txn start) (box_of store.now area.now) key.now (checked result) }
{
    let found = look_up(store, area, key, start, start);
    key_step(found.history, found.lock, txn, start, key)?;
    Ok(weight_of(found.history.stamped, found.lock, key.len()))
}
