// The check of one entry, by what the lookup found at its key. Two of the definition's steps are not tested: every record of a store is sound,
// and a record stamped below the start is stamped below the commit (StepCheckLaws and LaterLaws: the definition passes there).
ghost use Rattle.std.specs.Prelude.{◌≡◌, length};
ghost use Rattle.forms.specs.Bytes.{Bytes};
ghost use Rattle.rules.specs.Answers.{◌▸◌, need};
ghost use Rattle.rules.specs.Outcomes.{outcome};
ghost use Rattle.rules.specs.Calls.{kind_of};
ghost use Rattle.rules.specs.OneStep.{applied_by, step_lock};
ghost use Rattle.store.specs.View.{box_of};
ghost use Rattle.lookups.specs.KeyStates.{said, locked_by, KeyStateAt};
ghost use Rattle.changes.specs.Changes.{entry_for, row_bytes};
ghost use Rattle.forms.specs.Readers.{given};
ghost use Rattle.calls.specs.Weights.{checked};
ghost use Rattle.onesteps.specs.Checks.{met, row_held, FoundIn, tally_of, kind_step, Weighed, Asked, CheckAsks, CheckedAt};

use calls::{Weight, argument_step, own_step, row_stands};
use changes::{bytes_of, freed_by, kind_for, record_load};
use lookups::KeyState;
use rules::{CommitTerms, Kind, Refusal};
use store::{LockView, RecordView, Store};

// Of an entry, or of all of them: each is applied; at no key has the record at commit this start.
#[derive(Clone, Copy)]
pub struct Tally {
    pub all: bool,
    pub none: bool,
}

// What the checks of an entry, or of all entries, come to.
#[derive(Clone, Copy)]
pub struct Checks {
    // "1, 2"
    pub argument: Result<(), Refusal>,
    pub tally: Tally,
    // the steps of an entry that is not applied
    pub steps: Result<(), Refusal>,
    // what it would add and free, where its steps pass. It stands beside the steps and not within their `Ok`, since the sum goes on past a refusal
    pub weight: Weight,
}

// "An entry is applied if the record at commit has this start, this kind and, for a Put, this row; same start but other kind or row, 9."
fn tally_entry(at: Option<RecordView>, start: u64, row: Option<&[u8]>, area: &[u8]) -> Tally
    requires { FoundIn (length area.now) at }
    ensures { result ≡ tally_of (applied_by start (given row.entry) (row_held area.now at) (said at)) }
{
    let fresh = Tally {
        all: false,
        none: true,
    };
    match at {
        None => fresh,
        Some(w) => {
            if w.start != start {
                return fresh;
            }
            if w.kind != kind_for(row) {
                return Tally {
                    all: false,
                    none: false,
                };
            }
            Tally {
                all: row_stands(row, area, w.rowat, w.rowlen),
                none: false,
            }
        }
    }
}

// "own lock of other kind 9"
fn kind_step(lock: Option<LockView>, kind: Kind) -> Result<(), Refusal>
    ensures { (area : Bytes) → outcome result ≡ kind_step kind (locked_by area lock) }
{
    match lock {
        None => Ok(()),
        Some(l) => {
            if l.kind != kind {
                return Err(Refusal::Contradiction);
            }
            Ok(())
        }
    }
}

// "another's lock 7, own lock of other kind 9"
fn lock_step(lock: Option<LockView>, terms: CommitTerms, kind: Kind) -> Result<(), Refusal>
    ensures { (area : Bytes) → outcome result ≡ step_lock terms kind (locked_by area lock) }
{
    own_step(lock, terms.txn, terms.start)?;
    kind_step(lock, kind)
}

// "another's lock 7, own lock of other kind 9, ..; record at or above start 8", and what the entry adds and frees: "Each entry gets a
// record ..; a Put's row is stored and replaces one already stored at this start; an own lock goes". A row stored at this start is the
// own lock's.
fn new_entry_step(
    lock: Option<LockView>,
    below: bool,
    terms: CommitTerms,
    key: &[u8],
    row: Option<&[u8]>,
) -> Result<Weight, Refusal>
    requires { Asked key.now (row_bytes (given row)) lock }
    ensures { (area : Bytes) → Weighed (step_lock terms (kind_of (given row.entry)) (locked_by area lock) ▸ need below 8) (length key.now) (kind_of (given row.entry)) (length (row_bytes (given row.entry))) lock (checked result) }
{
    let kind = kind_for(row);
    lock_step(lock, terms, kind)?;
    if !below {
        return Err(Refusal::History);
    }
    let bytes = bytes_of(row);
    Ok(Weight {
        added: record_load(kind, key.len(), bytes.len()),
        freed: freed_by(lock, key.len()),
    })
}

// What the check of an entry finds in the store before the call, where `found` was looked up.
pub fn check_entry(
    store: &Store,
    found: KeyState,
    area: &[u8],
    terms: CommitTerms,
    key: &[u8],
    row: Option<&[u8]>,
) -> Checks
    requires { (CheckAsks store.now area.now key.now (row_bytes (given row))) × (KeyStateAt store.now area.now key.now terms.start terms.commit found) }
    ensures { CheckedAt terms (box_of store.now area.now) (entry_for key.now (given row.entry)) (met result) }
{
    let argument = argument_step(key, row);
    let tally = tally_entry(found.history.stamped, terms.start, row, area);
    match new_entry_step(found.lock, found.history.below, terms, key, row) {
        Ok(weight) => Checks {
            argument,
            tally,
            steps: Ok(()),
            weight,
        },
        Err(why) => Checks {
            argument,
            tally,
            steps: Err(why),
            weight: Weight::NONE,
        },
    }
}
