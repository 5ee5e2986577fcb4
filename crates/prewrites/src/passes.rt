// The checking pass over a batch of mutations, and what it comes to.
ghost use Rattle.std.specs.Prelude.{◌≤◌, ltb, length, map};
ghost use Rattle.forms.specs.Places.{EntryIn, mutation_of};
ghost use Rattle.rules.specs.Answers.{need};
ghost use Rattle.rules.specs.Prewrite.{prewrite_entry, apply_prewrite};
ghost use Rattle.store.specs.View.{box_of};
ghost use Rattle.store.specs.Made.{Built};
ghost use Rattle.calls.specs.Entries.{AllAsks};
ghost use Rattle.calls.specs.Weights.{checked, EntryChecked};
ghost use Rattle.calls.specs.Passes.{verdict, Judged};
ghost use Rattle.prewrites.specs.Checks.{with_primary, steps_of};

use crate::checks::check_entry;
use crate::heads::LockTerms;
use calls::{Weight, check_each, row_of};
use forms::Entry;
use rules::Refusal;
use store::Store;

// "before any entry is judged" 14; "then per entry ascending: .."; and then what all of them would add to its load. Whether the box becomes
// another one, or why the batch is refused.
pub fn check_all(
    store: &Store,
    area: &[u8],
    terms: LockTerms,
    primary: &[u8],
    batch: &[u8],
    entries: &[Entry],
) -> Result<bool, Refusal>
    requires { (AllAsks store.now area.now batch.now entries.now) × (length primary.now ≤ 255) }
    ensures { Judged (need (ltb store.now.floor terms.start) 14) (prewrite_entry (with_primary terms primary.now)) (apply_prewrite (with_primary terms primary.now)) (box_of store.now area.now) (map (mutation_of batch.now) entries.now) (verdict result) }
{
    check_each(
        store,
        terms.start,
        entries,
        |e: Entry| -> Result<Weight, Refusal>
            requires { (Built store.now area.now) × (length primary.now ≤ 255) × (EntryIn batch.now e) }
            ensures { EntryChecked (steps_of (with_primary terms primary.entry.now)) (box_of store.entry.now area.entry.now) (mutation_of batch.entry.now e) (checked result) }
        {
            let key = e.key.of(batch);
            let row = row_of(batch, e);
            check_entry(store, area, terms, primary, key, row)
        },
    )
}
