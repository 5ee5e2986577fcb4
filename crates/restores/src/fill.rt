// A line of the image comes into the store: its stretch to the top of the area, and its slot into a place of the table.
ghost use Rattle.std.specs.Prelude.{◌≡◌, true, false, ◌≤◌, length, get_or, ltb};
ghost use Rattle.forms.specs.Places.{part_of};
ghost use Rattle.images.specs.Entries.{raw_of};
ghost use Rattle.images.specs.Good.{kind_of};
ghost use Rattle.images.specs.Sections.{line_at};
ghost use Rattle.orders.specs.Finds.{rows_at};
ghost use Rattle.restores.specs.Fills.{WriteAsks, line_from, carrying, Comes, laid, here, AsksIf, ComesIf};

use crate::rows::{RowPlace, find_row};
use changes::{append_lock, append_record, lock_slot, record_slot};
use images::ImageEntry;
use orders::line_at;
use rules::records::Kind;
use store::table::no_slot;
use store::{Slot, pairs_in};

// A slot, the first byte past its stretch, and the place of the last default that was found.
#[derive(Clone, Copy)]
pub struct Filled {
    pub slot: Slot,
    pub top: usize,
    pub last: usize,
}

// An entry's kind; of a number that is no kind's, Rollback.
fn kind_of(e: ImageEntry) -> Kind
    ensures { result ≡ kind_of e.kind }
{
    e.kind.unwrap_or(Kind::Rollback)
}

// "a standing intent with its kind": the entry's key and numbers, its row, its time to live and its primary.
fn write_lock(area: &mut [u8], top: usize, s: &[u8], e: ImageEntry, found: RowPlace) -> Filled
    requires { WriteAsks s.now true e found area.old top }
    ensures { Comes (carrying (line_from true (raw_of s.now e)) (part_of s.now found.row)) area.old top result.slot result.top area.new }
{
    let kind = kind_of(e);
    let at = pairs_in(top);
    let end = append_lock(
        area,
        at + at,
        e.key.of(s),
        e.first,
        e.second,
        found.row.of(s),
        e.third,
        e.piece.of(s),
    );
    Filled {
        slot: lock_slot(at, e.key.len, e.piece.len, kind, found.row.len),
        top: end,
        last: found.last,
    }
}

// "a finished record": the entry's key and numbers, and its row.
fn write_record(area: &mut [u8], top: usize, s: &[u8], e: ImageEntry, found: RowPlace) -> Filled
    requires { WriteAsks s.now false e found area.old top }
    ensures { Comes (carrying (line_from false (raw_of s.now e)) (part_of s.now found.row)) area.old top result.slot result.top area.new }
{
    let kind = kind_of(e);
    let at = pairs_in(top);
    let end = append_record(
        area,
        at + at,
        e.key.of(s),
        e.first,
        e.second,
        found.row.of(s),
    );
    Filled {
        slot: record_slot(at, e.key.len, kind, found.row.len),
        top: end,
        last: found.last,
    }
}

// The place of line k of so many; none past them.
pub fn place_at(places: &[u32], count: usize, k: usize) -> Option<u32>
    requires { count ≤ length places.now }
    ensures { result ≡ here (ltb k count) (get_or places.now k 0) }
{
    if k < count { Some(places[k]) } else { None }
}

// The line at a place of the image: a lock below the place of the writes, else a write. For no place, the empty slot.
pub fn put_line(
    area: &mut [u8],
    top: usize,
    s: &[u8],
    writes: usize,
    rows: &[u32],
    place: Option<u32>,
    last: usize,
) -> Filled
    requires { AsksIf place (line_at s.now writes) (rows_at s.now rows.now) area.old top }
    ensures { ComesIf place (line_at s.now writes) (rows_at s.now rows.now) area.old top result.slot result.top area.new }
{
    match place {
        Some(place) => {
            let e = line_at(s, place, writes);
            let found = find_row(s, rows, e, last);
            if (place as usize) < writes {
                write_lock(area, top, s, e, found)
            } else {
                write_record(area, top, s, e, found)
            }
        }
        None => Filled {
            slot: no_slot(),
            top,
            last,
        },
    }
}
