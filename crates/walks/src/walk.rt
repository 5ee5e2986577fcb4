// The lines in turn: "Keys are those of records and locks together, ascending .. Each key is read first"; or "keys of locks only". One pass
// over the table.
ghost use Rattle.std.specs.Prelude.{◌≡◌, ◌+◌, ◌*◌, ◌<◌, ◌≤◌};
ghost use Rattle.store.specs.View.{box_of};
ghost use Rattle.store.specs.Made.{Built};
ghost use Rattle.bounds.specs.Bounds.{bounds_of};
ghost use Rattle.turns.specs.Scans.{over_of};
ghost use Rattle.walks.specs.Walked.{waits_at, walk_from, WalkAsks, WalkedAs, walked_in};

use crate::walked::Walked;
use bounds::{Bounds, slots_share};
use rules::Refusal;
use store::{Slot, Store, view_of};
use turns::{PageQuery, Scan, Turn, no_due, turn_of};

// Whether the turn of the key of line i is not yet: a page of rows waits for the key's last line.
fn waits(store: &Store, area: &[u8], scan: Scan, i: usize) -> bool
    requires { Built store.now area.now × (i < store.now.load.lines) }
    ensures { result ≡ waits_at area.now scan store.now i }
{
    scan.by_key()
        && i + 1 < store.load.lines
        && slots_share(store.lines[i], store.lines[i + 1], area)
}

// A page of the first `count` slots: its entries, the count and the more byte.
fn listed(scan: Scan, more: bool, count: usize, sum: usize, slots: [Slot; 1024]) -> Walked
    requires { (count ≤ 1024) × (sum ≤ 1048576) }
    ensures { result ≡ record { more = more; count = count; size = sum + over_of scan * count + 3; slots = slots } }
{
    Walked {
        more,
        count,
        size: sum + scan.over() * count + 3,
        slots,
    }
}

pub(crate) fn walk_lines(
    store: &Store,
    area: &[u8],
    asked: &PageQuery,
    bounds: &Bounds,
) -> Result<Walked, Refusal>
    requires { WalkAsks store.now area.now asked.now }
    ensures { WalkedAs area.now (walk_from asked.now (bounds_of bounds.now) (box_of store.now area.now) (box_of store.now area.now).lines 0 0) (walked_in result) }
{
    // Count and sum stand beside the slots: a struct of the three would be 8 KB by value in each step.
    let mut found = [store::table::no_slot(); 1024];
    let mut due = no_due();
    let mut count: usize = 0;
    let mut sum: usize = 0;
    for i in 0..store.load.lines {
        let s = store.lines[i];
        let seen = due.with(asked, s, view_of(s, area));
        if waits(store, area, asked.scan, i) {
            due = seen;
            continue;
        }
        due = no_due();
        match turn_of(bounds.hold_slot(s, area), seen, asked, count, sum) {
            Turn::On => {}
            Turn::Stop => return Ok(listed(asked.scan, true, count, sum, found)),
            Turn::Refuse(why) => return Err(why),
            Turn::Add(p, cost) => {
                found[count] = p;
                count += 1;
                sum += cost;
            }
        }
    }
    Ok(listed(asked.scan, false, count, sum, found))
}
