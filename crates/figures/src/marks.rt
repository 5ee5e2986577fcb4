// "High-water marks: largest lock transaction, largest stamp or start of any kind, each 0 if none." A default's start is its line's, so the
// lines tell.
ghost use Rattle.std.specs.Prelude.{◌≡◌, ◌+◌, ◌≤◌, length};
ghost use Rattle.rules.specs.Figures.{marks};
ghost use Rattle.store.specs.View.{place_of, box_of, line_of};
ghost use Rattle.store.specs.Made.{Made};
ghost use Rattle.figures.specs.Walks.{add_mark};

use rules::Marks;
use store::views::eight_at;
use store::{AREA, Line, Slot, Store, place_of};

// One line more.
fn mark_line(m: Marks, s: Slot, area: &[u8]) -> Marks
    requires { place_of s + s.len + 16 ≤ length area.now }
    ensures { result ≡ add_mark (line_of area.now s) m }
{
    let at = place_of(s) + s.len as usize;
    let first = eight_at(area, at);
    let start = eight_at(area, at + 8);
    let stamp = start.max(m.stamp);
    match s.line {
        Line::Standing(_) => Marks {
            txn: first.max(m.txn),
            stamp,
        },
        Line::Finished(_) => Marks {
            stamp: first.max(stamp),
            ..m
        },
    }
}

pub fn allocator_high_water_marks(store: &Store, area: &[u8; AREA]) -> Marks
    requires { Made store.now area.now }
    ensures { result ≡ marks (box_of store.now area.now) }
{
    let mut m = Marks { txn: 0, stamp: 0 };
    for i in (0..store.load.lines).rev() {
        m = mark_line(m, store.lines[i], area);
    }
    m
}
