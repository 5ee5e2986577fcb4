// Prewrite of a batch.
ghost use Rattle.std.specs.Prelude.{◌≡◌, ltb, map};
ghost use Rattle.forms.specs.Places.{mutation_of};
ghost use Rattle.rules.specs.Answers.{Accepted, need};
ghost use Rattle.rules.specs.Outcomes.{outcome};
ghost use Rattle.rules.specs.Prewrite.{prewrite_terms_step, prewrite_entry, apply_prewrite, prewrite_batch};
ghost use Rattle.store.specs.View.{box_of};
ghost use Rattle.store.specs.Made.{Made};
ghost use Rattle.calls.specs.Settled.{Settled};
ghost use Rattle.calls.specs.Entries.{AllAsks};
ghost use Rattle.calls.specs.Passes.{all_done};
ghost use Rattle.prewrites.specs.Checks.{with_primary};

use crate::heads::{LockTerms, terms_step};
use crate::passes::check_all;
use actions::Action;
use calls::{decoded_step, settle};
use forms::{Entry, mutations_of};
use rules::Refusal;
use store::{AREA, Store};

// The steps of a batch that is in form and not empty, its head passed: 14; "per entry ascending ..; Then 11", and the applying pass.
fn prewrite_all(
    store: &mut Store,
    area: &mut [u8],
    terms: LockTerms,
    primary: &[u8],
    batch: &[u8],
    entries: &[Entry],
) -> Result<(), Refusal>
    requires { (AllAsks store.old area.old batch.now entries.now) × (prewrite_terms_step 0 (with_primary terms primary.now) ≡ Accepted) }
    ensures { Settled store.old area.old (all_done (need (ltb store.old.floor terms.start) 14) (prewrite_entry (with_primary terms primary.now)) (apply_prewrite (with_primary terms primary.now)) (map (mutation_of batch.now) entries.now) (box_of store.old area.old)) (record { store = store.new; answer = outcome result }) area.new }
{
    let judged = check_all(store, area, terms, primary, batch, entries);
    let action = Action::Prewrite {
        txn: terms.txn,
        start: terms.start,
        ttl: terms.ttl,
    };
    settle(store, area, judged, action, primary, batch, entries)
}

// "batch 6, 5; transaction, start 3; primary 1; time to live 3"; 14; "then per entry ascending ..; Then 11."
pub fn prewrite_batch(
    store: &mut Store,
    area: &mut [u8; AREA],
    txn: u64,
    start: u64,
    ttl: u64,
    primary: &[u8],
    batch: &[u8],
) -> Result<(), Refusal>
    requires { Made store.old area.old }
    ensures { Settled store.old area.old (prewrite_batch store.old.floor (with_primary (record { txn = txn; start = start; ttl = ttl }) primary.now) batch.now (box_of store.old area.old)) (record { store = store.new; answer = outcome result }) area.new }
{
    let terms = LockTerms { txn, start, ttl };
    let decoded = mutations_of(batch);
    let entries = decoded_step(&decoded, terms_step(terms, primary))?;
    prewrite_all(store, area, terms, primary, batch, entries)
}
