// Where the default of a line's key and start stands among an image's defaults in order.
ghost use Rattle.std.specs.Prelude.{◌≡◌, ◌≤◌, ◌<◌};
ghost use Rattle.orders.specs.Finds.{key_inside, place_of, PlaceAsks};

use crate::marks::{Mark, mark_before};
use images::{ImageEntry, Section, stood_at};

// Where a search looks: at the last place that was found and at the one after it, if they may be it, else in the middle.
fn probe(low: usize, high: usize, last: usize) -> usize
    requires { low < high }
    ensures { (low ≤ result) × (result < high) }
{
    if low.checked_sub(1) == Some(last) {
        low
    } else if low <= last && last < high {
        last
    } else {
        low + (high - low) / 2
    }
}

// By halves, so that an image whose starts stand in any order costs no more. In most images it is the one after the last. The marks are made of
// whole entries: `mark_at` reads no more than a default's head, and so says another key where the rest of it does not stand.
pub fn row_place(s: &[u8], rows: &[u32], e: ImageEntry, last: usize) -> usize
    requires { PlaceAsks s.now rows.now e }
    ensures { result ≡ place_of s.now rows.now (key_inside s.now e) e.second }
{
    let pair = Mark {
        key: e.key,
        lock: false,
        value: e.second,
    };
    let mut low: usize = 0;
    let mut high = rows.len();
    while low < high {
        let middle = probe(low, high, last);
        let found = stood_at(s, rows[middle], Section::Default);
        let mark = Mark {
            key: found.key,
            lock: false,
            value: found.first,
        };
        if mark_before(s, mark, pair) {
            low = middle + 1;
        } else {
            high = middle;
        }
    }
    low
}
