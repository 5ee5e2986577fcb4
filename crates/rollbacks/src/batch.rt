// Rollback of a batch of keys.
ghost use Rattle.std.specs.Prelude.{◌≡◌, ltb, map};
ghost use Rattle.forms.specs.Places.{key_at};
ghost use Rattle.rules.specs.Answers.{Accepted, need};
ghost use Rattle.rules.specs.Outcomes.{outcome};
ghost use Rattle.rules.specs.Calls.{zero_step};
ghost use Rattle.rules.specs.Rollback.{rollback_key, apply_rollback, rollback_batch};
ghost use Rattle.store.specs.View.{box_of};
ghost use Rattle.store.specs.Made.{Made};
ghost use Rattle.calls.specs.Settled.{Settled};
ghost use Rattle.calls.specs.Entries.{AllAsks};
ghost use Rattle.calls.specs.Passes.{all_done};

use crate::passes::check_all;
use actions::Action;
use calls::{decoded_step, settle, zero_step};
use forms::{Entry, keys_of};
use rules::Refusal;
use store::{AREA, Store};

// The steps of a batch that is in form and not empty, its head passed: 14; "per key: ..; Then 11", and the applying pass. Where nothing
// changes no key is applied.
fn rollback_all(
    store: &mut Store,
    area: &mut [u8],
    txn: u64,
    start: u64,
    batch: &[u8],
    entries: &[Entry],
) -> Result<(), Refusal>
    requires { (AllAsks store.old area.old batch.now entries.now) × (zero_step txn start ≡ Accepted) }
    ensures { Settled store.old area.old (all_done (need (ltb store.old.floor start) 14) (rollback_key txn start) (apply_rollback start) (map (key_at batch.now) entries.now) (box_of store.old area.old)) (record { store = store.new; answer = outcome result }) area.new }
{
    let judged = check_all(store, area, txn, start, batch, entries);
    let action = Action::Rollback { txn, start };
    settle(store, area, judged, action, &[], batch, entries)
}

// "6, 5; 3"; 14; "per key: ..; Then 11." Transaction and start stay two numbers, as the definitions and the steps of `calls` take them.
pub fn rollback_intents_batch(
    store: &mut Store,
    area: &mut [u8; AREA],
    txn: u64,
    start: u64,
    batch: &[u8],
) -> Result<(), Refusal>
    requires { Made store.old area.old }
    ensures { Settled store.old area.old (rollback_batch store.old.floor txn start batch.now (box_of store.old area.old)) (record { store = store.new; answer = outcome result }) area.new }
{
    let decoded = keys_of(batch);
    let entries = decoded_step(&decoded, zero_step(txn, start))?;
    rollback_all(store, area, txn, start, batch, entries)
}
