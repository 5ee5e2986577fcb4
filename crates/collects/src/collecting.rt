// "Collect up to a floor F": the call.
ghost use Rattle.rules.specs.Outcomes.{outcome};
ghost use Rattle.store.specs.Made.{Made};
ghost use Rattle.collects.specs.Promise.{CollectedAs};

use crate::passing::{line_step, nothing_passed, pass_line};
use changes::less;
use rules::Refusal;
use store::table::no_slot;
use store::{AREA, Store};

// "14, below the floor, .. for a collection with a lower floor, tested first; a collection with a lock at or below F answers 7 for the first
// such key". A walk down the table finds that lock and marks the lines that stay. Nothing is written to the store before it has ended. Then the
// lines that stay close up where they stand, and the slots behind them are empty: "Room that was freed counts as free at once". The
// stretches of those that went lie in the area until it is packed anew.
pub fn collect(store: &mut Store, area: &[u8; AREA], floor: u64) -> Result<(), Refusal>
    requires { Made store.old area.now }
    ensures { CollectedAs floor store.old area.now (record { store = store.new; answer = outcome result }) area.now }
{
    if floor < store.floor {
        return Err(Refusal::BelowFloor);
    }
    let load = store.load;
    let n = load.lines;
    // Marks beside the table, since nothing is written to the store before the walk has ended.
    let mut kept = [false; 1024];
    let mut p = nothing_passed();
    for i in (0..n).rev() {
        p = pass_line(p, store.lines[i], i, area, floor);
        kept[i] = p.stays;
    }
    if let Some(first) = p.held {
        return line_step(store.lines[first], area, floor);
    }
    let mut k = 0;
    for i in 0..n {
        let slot = store.lines[i];
        store.lines[i] = no_slot();
        if kept[i] {
            store.lines[k] = slot;
            k += 1;
        }
    }
    store.load = less(load, p.freed);
    store.floor = floor;
    Ok(())
}
