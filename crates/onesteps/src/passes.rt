// The checking pass over a batch, and what it comes to. Nothing is written before the last entry has been looked up.
ghost use Rattle.std.specs.Prelude.{◌≡◌, map};
ghost use Rattle.forms.specs.Places.{mutation_of};
ghost use Rattle.rules.specs.Answers.{Accepted, ◌▸◌};
ghost use Rattle.rules.specs.Outcomes.{outcome};
ghost use Rattle.store.specs.View.{box_of};
ghost use Rattle.calls.specs.Entries.{AllAsks};
ghost use Rattle.calls.specs.Weights.{Sums, LeftAsks};
ghost use Rattle.onesteps.specs.Checks.{met, Joined, AllChecked, judged};

use crate::checks::{Checks, Tally, check_entry};
use calls::{Weight, left_load, plus_weight, row_of};
use forms::Entry;
use lookups::look_up;
use rules::{CommitTerms, Load, Refusal, load_fits};
use store::Store;

// The first refusal is the answer.
fn first(a: Result<(), Refusal>, b: Result<(), Refusal>) -> Result<(), Refusal>
    ensures { outcome result ≡ outcome a ▸ outcome b }
{
    a?;
    b
}

// One entry more.
fn join(t: Checks, m: Checks) -> Checks
    requires { Sums t.weight m.weight }
    ensures { Joined (met t) (met m) (met result) }
{
    Checks {
        argument: first(t.argument, m.argument),
        tally: Tally {
            all: t.tally.all && m.tally.all,
            none: t.tally.none && m.tally.none,
        },
        steps: first(t.steps, m.steps),
        weight: plus_weight(t.weight, m.weight),
    }
}

// Every entry on the store before the call. It goes on past an entry that is refused, so it is not calls' `check_each`.
pub fn check_all(
    store: &Store,
    area: &[u8],
    terms: CommitTerms,
    batch: &[u8],
    entries: &[Entry],
) -> Checks
    requires { AllAsks store.now area.now batch.now entries.now }
    ensures { AllChecked terms (box_of store.now area.now) (map (mutation_of batch.now) entries.now) (met result) }
{
    let mut all = Checks {
        argument: Ok(()),
        tally: Tally {
            all: true,
            none: true,
        },
        steps: Ok(()),
        weight: Weight::NONE,
    };
    for e in entries {
        let key = e.key.of(batch);
        let row = row_of(batch, *e);
        let found = look_up(store, area, key, terms.start, terms.commit);
        let one = check_entry(store, found, area, terms, key, row);
        all = join(all, one);
    }
    all
}

// "each entry in turn 1, 2; .. same start but other kind or row, 9. All applied: accepted, unchanged. Some: 9. None: per entry ..; 11."
pub fn judge(all: Checks, load: Load) -> Result<(), Refusal>
    requires { outcome all.steps ≡ Accepted → LeftAsks load all.weight }
    ensures { outcome result ≡ judged (met all) load }
{
    all.argument?;
    if all.tally.all {
        return Ok(());
    }
    if !all.tally.none {
        return Err(Refusal::Contradiction);
    }
    all.steps?;
    let left = left_load(load, all.weight);
    if !load_fits(left) {
        return Err(Refusal::NoRoom);
    }
    Ok(())
}
