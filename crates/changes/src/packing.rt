// The area packed anew: the stretches of the lines, in table order, from its beginning. "Room that was freed counts as free at once."
ghost use Rattle.store.specs.Made.{Made};
ghost use Rattle.changes.specs.Packs.{PackAsks, Packed, Repacked};

use forms::put_bytes;
use store::{Slot, Store, pairs_in, past_key, place_of};

// Each stretch is copied whole, to the next pair of bytes.
fn pack(store: &mut Store, area: &[u8], into: &mut [u8])
    requires { PackAsks store.old area.now into.old }
    ensures { Packed store.old area.now store.new into.new }
{
    let n = store.load.lines;
    let mut at: usize = 0;
    for i in 0..n {
        let s = store.lines[i];
        let from = place_of(s);
        let size = s.len as usize + past_key(s.line);
        let end = put_bytes(into, at + at, &area[from..from + size]);
        store.lines[i] = Slot {
            at: at as u16,
            used: true,
            ..s
        };
        at = pairs_in(end);
    }
    store.top = at + at;
}

// The stretches go into a fresh array, and back.
pub fn repack(store: &mut Store, area: &mut [u8])
    requires { Made store.old area.old }
    ensures { Repacked store.old area.old store.new area.new }
{
    let mut into = [0u8; 68608];
    pack(store, area, &mut into);
    put_bytes(area, 0, &into[0..store.top]);
}
