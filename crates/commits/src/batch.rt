// Commit of a batch of keys.
ghost use Rattle.std.specs.Prelude.{◌≡◌, map};
ghost use Rattle.forms.specs.Places.{key_at};
ghost use Rattle.rules.specs.Answers.{Accepted};
ghost use Rattle.rules.specs.Outcomes.{outcome};
ghost use Rattle.rules.specs.Commit.{commit_terms_step, commit_batch};
ghost use Rattle.store.specs.View.{box_of};
ghost use Rattle.store.specs.Made.{Made};
ghost use Rattle.calls.specs.Settled.{Settled};
ghost use Rattle.calls.specs.Entries.{AllAsks};
ghost use Rattle.commits.specs.Passes.{all_done};

use crate::passes::check_all;
use actions::Action;
use calls::{commit_terms_step, decoded_step, settle};
use forms::{Entry, keys_of};
use rules::{CommitTerms, Refusal};
use store::{AREA, Store};

// The steps of a batch that is in form and not empty, its head passed: 14; "per key: ..", and the applying pass. There is no 11. Where nothing
// changes no key is applied.
fn commit_all(
    store: &mut Store,
    area: &mut [u8],
    terms: CommitTerms,
    batch: &[u8],
    entries: &[Entry],
) -> Result<(), Refusal>
    requires { (AllAsks store.old area.old batch.now entries.now) × (commit_terms_step 0 terms ≡ Accepted) }
    ensures { Settled store.old area.old (all_done store.old.floor terms (map (key_at batch.now) entries.now) (box_of store.old area.old)) (record { store = store.new; answer = outcome result }) area.new }
{
    let judged = check_all(store, area, terms, batch, entries);
    let action = Action::Commit(terms);
    settle(store, area, judged, action, &[], batch, entries)
}

// "6, 5; 3"; 14; "per key: ..". Of the terms' steps the head takes those on the floor 0, where 14 never comes: the checking pass asks the store's
// floor.
pub fn commit_intents_batch(
    store: &mut Store,
    area: &mut [u8; AREA],
    txn: u64,
    start: u64,
    commit: u64,
    batch: &[u8],
) -> Result<(), Refusal>
    requires { Made store.old area.old }
    ensures { Settled store.old area.old (commit_batch store.old.floor (record { txn = txn; start = start; commit = commit }) batch.now (box_of store.old area.old)) (record { store = store.new; answer = outcome result }) area.new }
{
    let terms = CommitTerms { txn, start, commit };
    let decoded = keys_of(batch);
    let entries = decoded_step(&decoded, commit_terms_step(0, terms))?;
    commit_all(store, area, terms, batch, entries)
}
