// `commit_batch`: the head's refusals, then the two passes over the entries.
ghost use Rattle.std.specs.Prelude.{◌≡◌, map};
ghost use Rattle.forms.specs.Places.{mutation_of};
ghost use Rattle.rules.specs.Answers.{Accepted};
ghost use Rattle.rules.specs.Outcomes.{outcome, value_or};
ghost use Rattle.rules.specs.Commit.{commit_terms_step};
ghost use Rattle.rules.specs.OneStep.{one_step};
ghost use Rattle.store.specs.View.{box_of};
ghost use Rattle.store.specs.Made.{Made};
ghost use Rattle.calls.specs.Entries.{AllAsks};
ghost use Rattle.onesteps.specs.Counts.{later_counted, Counts};

use crate::passes::{check_all, judge};
use actions::Action;
use calls::{apply_all, commit_terms_step};
use forms::{Entry, mutations_of};
use rules::{CommitTerms, Refusal};
use store::{AREA, Store};

// The steps of a batch in form whose head has passed, and the applying pass. Where all of it is applied already, no entry is applied. It answers
// a count, so its end is not calls' `settle`.
fn step_all(
    store: &mut Store,
    area: &mut [u8],
    terms: CommitTerms,
    batch: &[u8],
    entries: &[Entry],
) -> Result<usize, Refusal>
    requires { (AllAsks store.old area.old batch.now entries.now) × (commit_terms_step store.old.floor terms ≡ Accepted) }
    ensures { Counts store.old area.old (later_counted terms (map (mutation_of batch.now) entries.now) (box_of store.old area.old)) (record { store = store.new; answer = outcome result; count = value_or 0 result }) area.new }
{
    let all = check_all(store, area, terms, batch, entries);
    judge(all, store.load)?;
    if all.tally.all {
        return Ok(entries.len());
    }
    apply_all(store, area, Action::Step(terms), &[], batch, entries);
    Ok(entries.len())
}

// "One-step batch: 6; 3"; "after the last 3, .. and before any entry is judged" 14; "each entry in turn 1, 2; empty, accepted with count 0. ..
// The count is the number of entries."
pub fn commit_batch(
    store: &mut Store,
    area: &mut [u8; AREA],
    txn: u64,
    start: u64,
    commit: u64,
    batch: &[u8],
) -> Result<usize, Refusal>
    requires { Made store.old area.old }
    ensures { Counts store.old area.old (one_step store.old.floor (record { txn = txn; start = start; commit = commit }) batch.now (box_of store.old area.old)) (record { store = store.new; answer = outcome result; count = value_or 0 result }) area.new }
{
    let terms = CommitTerms { txn, start, commit };
    let Some(entries) = mutations_of(batch) else {
        return Err(Refusal::BatchForm);
    };
    commit_terms_step(store.floor, terms)?;
    step_all(store, area, terms, batch, entries.as_slice())
}
