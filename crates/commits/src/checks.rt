// The check of one key: look it up, and judge it by what was found. That records are sound, that a start has one line of a key, and that a
// Put line carries a row in form and a Delete none is the store's own: no step tests it (CommitKeyLaws: the definition passes there).
ghost use Rattle.std.specs.Prelude.{◌≡◌};
ghost use Rattle.forms.specs.Bytes.{Bytes};
ghost use Rattle.rules.specs.Outcomes.{outcome};
ghost use Rattle.rules.specs.Commit.{commit_key};
ghost use Rattle.store.specs.View.{box_of};
ghost use Rattle.store.specs.Made.{Built};
ghost use Rattle.store.specs.Views.{record_in};
ghost use Rattle.lookups.specs.KeyStates.{locked_by};
ghost use Rattle.calls.specs.Passes.{verdict};
ghost use Rattle.commits.specs.Checks.{record_steps, lock_steps, is_new, Judged};

use forms::key_in_form;
use lookups::look_up;
use rules::{CommitTerms, Kind, Refusal};
use store::{LockView, RecordView, Store, held_by, owns};

// "Rollback, 8; other commit, 8; equal commit, accepted and unchanged"
#[tactic(auto, using(laws::proofs::ChainLaws::chain))]
fn check_record(w: RecordView, terms: CommitTerms) -> Result<(), Refusal>
    ensures { outcome result ≡ record_steps terms (record_in w) }
{
    if w.kind == Kind::Rollback || w.stamp != terms.commit {
        return Err(Refusal::History);
    }
    Ok(())
}

// "None: no lock, 8; another's lock, 7; newest stamp at or above commit, 8". It asks `owns` itself: after calls' `own_step`, which lets a key
// without a lock pass, "no lock" would be a second question.
fn check_lock(lock: Option<LockView>, newer: bool, terms: CommitTerms) -> Result<(), Refusal>
    ensures { (area : Bytes) → outcome result ≡ lock_steps terms newer (locked_by area lock) }
{
    let Some(l) = lock else {
        return Err(Refusal::History);
    };
    if !owns(l, terms.txn, terms.start) {
        return Err(held_by(l));
    }
    if !newer {
        return Err(Refusal::History);
    }
    Ok(())
}

// "per key: 1; ..; the lowest-stamped record with this start, if any: ..; None: .." Only a key without that record changes: whether this one
// does, or why it is refused.
pub fn check_key(
    store: &Store,
    area: &[u8],
    terms: CommitTerms,
    key: &[u8],
) -> Result<bool, Refusal>
    requires { Built store.now area.now }
    ensures { Judged (commit_key terms (box_of store.now area.now) key.now) (is_new terms (box_of store.now area.now) key.now) (verdict result) }
{
    if !key_in_form(key) {
        return Err(Refusal::KeyForm);
    }
    let found = look_up(store, area, key, terms.start, terms.commit);
    match found.history.started {
        Some(w) => {
            check_record(w, terms)?;
            Ok(false)
        }
        None => {
            check_lock(found.lock, found.history.above, terms)?;
            Ok(true)
        }
    }
}
