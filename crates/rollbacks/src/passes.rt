// The checking pass over a batch of keys, and what it comes to.
ghost use Rattle.std.specs.Prelude.{ltb, map};
ghost use Rattle.forms.specs.Places.{key_at, EntryIn};
ghost use Rattle.rules.specs.Answers.{need};
ghost use Rattle.rules.specs.Rollback.{rollback_key, apply_rollback};
ghost use Rattle.store.specs.View.{box_of};
ghost use Rattle.store.specs.Made.{Built};
ghost use Rattle.calls.specs.Entries.{AllAsks};
ghost use Rattle.calls.specs.Weights.{checked, EntryChecked};
ghost use Rattle.rollbacks.specs.Checks.{steps_of};
ghost use Rattle.calls.specs.Passes.{verdict, Judged};

use crate::checks::check_key;
use calls::{Weight, check_each};
use forms::Entry;
use rules::Refusal;
use store::Store;

// 14; "per key: .."; and then what all of them would add to its load and free of it. Whether the box becomes another one, or why the batch is
// refused.
pub fn check_all(
    store: &Store,
    area: &[u8],
    txn: u64,
    start: u64,
    batch: &[u8],
    entries: &[Entry],
) -> Result<bool, Refusal>
    requires { AllAsks store.now area.now batch.now entries.now }
    ensures { Judged (need (ltb store.now.floor start) 14) (rollback_key txn start) (apply_rollback start) (box_of store.now area.now) (map (key_at batch.now) entries.now) (verdict result) }
{
    check_each(
        store,
        start,
        entries,
        |e: Entry| -> Result<Weight, Refusal>
            requires { (Built store.now area.now) × (EntryIn batch.now e) }
            ensures { EntryChecked (steps_of txn start) (box_of store.entry.now area.entry.now) (key_at batch.entry.now e) (checked result) }
        { check_key(store, area, txn, start, e.key.of(batch)) },
    )
}
