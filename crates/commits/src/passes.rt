// The checking pass over a batch of keys. Nothing is written before the last key has passed.
ghost use Rattle.std.specs.Prelude.{map};
ghost use Rattle.forms.specs.Places.{key_at};
ghost use Rattle.store.specs.View.{box_of};
ghost use Rattle.calls.specs.Entries.{AllAsks};
ghost use Rattle.calls.specs.Passes.{verdict};
ghost use Rattle.commits.specs.Checks.{some_new, Judged};
ghost use Rattle.commits.specs.Passes.{floor_keys};

use crate::checks::check_key;
use calls::floor_step;
use forms::Entry;
use rules::{CommitTerms, Refusal};
use store::Store;

// 14; "per key: ..": every key on the store before the call, the whole list for one key before the next. Where each key has its record already
// nothing changes. Whether the box becomes another one, or why the batch is refused. A commit has no 11 and sums no weights, so this is not calls'
// `check_each`.
pub fn check_all(
    store: &Store,
    area: &[u8],
    terms: CommitTerms,
    batch: &[u8],
    entries: &[Entry],
) -> Result<bool, Refusal>
    requires { AllAsks store.now area.now batch.now entries.now }
    ensures { Judged (floor_keys store.now.floor terms (box_of store.now area.now) (map (key_at batch.now) entries.now)) (some_new terms (box_of store.now area.now) (map (key_at batch.now) entries.now)) (verdict result) }
{
    floor_step(store.floor, terms.start)?;
    let mut moves = false;
    for e in entries {
        let key = e.key.of(batch);
        moves |= check_key(store, area, terms, key)?;
    }
    Ok(moves)
}
