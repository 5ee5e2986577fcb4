// The applying pass of every changing call: one entry after the other, each the definition's own change.
ghost use Rattle.std.specs.Prelude.{ℕ, ◌≡◌, ◌≤◌, true, length};
ghost use Rattle.rules.specs.Outcomes.{outcome};
ghost use Rattle.store.specs.Made.{Made};
ghost use Rattle.calls.specs.Passes.{EntryAt, EntryChanged, ApplyAsks, AllApplied, Roomy, SettledBy, verdict};

use crate::parts::row_of;
use actions::{Action, apply_entry, most_of, point_of};
use changes::{Change, make_change, repack};
use forms::Entry;
use lookups::look_up;
use rules::Refusal;
use store::{AREA, Store};

// The area is packed anew where the bytes to come would pass its end.
fn make_room(store: &mut Store, area: &mut [u8], need: usize)
    requires { (Made store.old area.old) × (need ≤ 12032) }
    ensures { Roomy store.old area.old need store.new area.new }
{
    if AREA - store.top < need {
        repack(store, area);
    }
}

// The change for one entry, by what stands at its key; its bytes are written.
fn change_of(
    store: &Store,
    area: &mut [u8],
    action: Action,
    primary: &[u8],
    batch: &[u8],
    e: Entry,
) -> Change
    requires { EntryAt action primary.now store.now area.old batch.now e }
    ensures { EntryChanged action primary.now store.now area.old batch.now e result area.new }
{
    let point = point_of(action);
    let key = e.key.of(batch);
    let row = row_of(batch, e);
    let seen = look_up(store, area, key, point.start, point.stamp);
    apply_entry(store, area, seen, action, primary, key, row)
}

// Each entry in its turn; where their bytes would pass the end of the area, it is packed anew before.
pub fn apply_all(
    store: &mut Store,
    area: &mut [u8],
    action: Action,
    primary: &[u8],
    batch: &[u8],
    entries: &[Entry],
)
    requires { ApplyAsks action primary.now store.old area.old batch.now entries.now }
    ensures { AllApplied action primary.now store.old area.old batch.now entries.now store.new area.new }
{
    make_room(store, area, entries.len() * most_of(action));
    for e in entries {
        let change = change_of(store, area, action, primary, batch, *e);
        make_change(store, change);
    }
}

// What a batch comes to, once its entries are judged: a refusal, or a call where nothing changes, applies no entry.
pub fn settle(
    store: &mut Store,
    area: &mut [u8],
    judged: Result<bool, Refusal>,
    action: Action,
    primary: &[u8],
    batch: &[u8],
    entries: &[Entry],
) -> Result<(), Refusal>
    requires { (verdict judged).moves ≡ true → ApplyAsks action primary.now store.old area.old batch.now entries.now }
    ensures { SettledBy (verdict judged) action primary.now store.old area.old batch.now entries.now (outcome result) store.new area.new }
{
    if judged? {
        apply_all(store, area, action, primary, batch, entries);
    }
    Ok(())
}
