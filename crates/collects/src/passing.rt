// One line of the walk over the table, which goes from the last line to the first: whether it stays, and what goes with it.
ghost use Rattle.std.specs.Prelude.{◌≡◌, ◌+◌, ◌≤◌, length};
ghost use Rattle.rules.specs.Collect.{line_above_step};
ghost use Rattle.rules.specs.Outcomes.{outcome};
ghost use Rattle.store.specs.View.{place_of, past, line_of};
ghost use Rattle.changes.specs.Loads.{record_size, Small};
ghost use Rattle.forms.specs.Places.{given_part};
ghost use Rattle.collects.specs.Passes.{nothing_passed, is_key, NewerIn, record_dropped, record_passed, line_passed, PassAsks};

use changes::{more, record_load};
use forms::Part;
use rules::{Kind, Load, Refusal};
use store::views::eight_at;
use store::{Line, LineView, RecordSlot, Slot, held_by, place_of, view_of};

// What the walk keeps of the lines that it has passed.
#[derive(Clone, Copy)]
pub struct Passed {
    // the key of the first of them that counts, if one does: it is stamped at or below F and is not a Rollback
    pub newer: Option<Part>,
    // whether the line passed last stays
    pub stays: bool,
    // the place of the first lock at or below F, if there is one
    pub held: Option<usize>,
    // what the tallies lose with the lines that go
    pub freed: Load,
}

// Before the walk.
pub fn nothing_passed() -> Passed
    ensures { result ≡ nothing_passed }
{
    Passed {
        newer: None,
        stays: true,
        held: None,
        freed: Load::NONE,
    }
}

// "drop the rest with their rows": a record goes, whose key has `size` bytes, with the row of a Put. The first key that counts is told, since the
// record may be it.
fn drop_record(p: Passed, newer: Option<Part>, w: RecordSlot, size: usize) -> Passed
    requires { (Small p.freed) × (size ≤ 255) }
    ensures { result ≡ record_dropped p newer (record_size w.kind size w.rowlen) }
{
    let load = record_load(w.kind, size, usize::from(w.rowlen));
    Passed {
        newer,
        stays: false,
        freed: more(p.freed, load),
        ..p
    }
}

// Whether the first line that counts, if there is one, has this key.
fn has_key(newer: Option<Part>, key: &[u8], area: &[u8]) -> bool
    requires { NewerIn area.now newer }
    ensures { result ≡ is_key key.now (given_part area.now newer) }
{
    newer.is_some_and(|n| forms::same(key, n.of(area)))
}

// "of records stamped at or below F keep the newest that is not a Rollback, if it is a Put". A key's newer records have been passed, and the
// lines stand in order: a Put at or below F goes if the first line that counts has its key.
fn pass_record(p: Passed, s: Slot, w: RecordSlot, area: &[u8], floor: u64) -> Passed
    requires { PassAsks area.now p s }
    ensures { result ≡ record_passed floor area.now p s w }
{
    let len = usize::from(s.len);
    let key = Part {
        at: place_of(s),
        len,
    };
    let stamp = eight_at(area, key.end());
    if floor < stamp {
        return Passed { stays: true, ..p };
    }
    match w.kind {
        Kind::Put => {
            if has_key(p.newer, key.of(area), area) {
                return drop_record(p, Some(key), w, len);
            }
            Passed {
                newer: Some(key),
                stays: true,
                ..p
            }
        }
        Kind::Delete => drop_record(p, Some(key), w, len),
        Kind::Rollback => drop_record(p, p.newer, w, len),
    }
}

// The line at place `i`. A lock stays, and may be the one that holds the collection up.
pub fn pass_line(p: Passed, s: Slot, i: usize, area: &[u8], floor: u64) -> Passed
    requires { PassAsks area.now p s }
    ensures { result ≡ line_passed floor area.now p s i }
{
    match s.line {
        Line::Standing(_) => {
            let start = eight_at(area, place_of(s) + usize::from(s.len) + 8);
            if floor < start {
                return Passed { stays: true, ..p };
            }
            Passed {
                stays: true,
                held: Some(i),
                ..p
            }
        }
        Line::Finished(w) => pass_record(p, s, w, area, floor),
    }
}

// "a collection with a lock at or below F answers 7"
pub fn line_step(s: Slot, area: &[u8], floor: u64) -> Result<(), Refusal>
    requires { place_of s + s.len + past s.line ≤ length area.now }
    ensures { outcome result ≡ line_above_step floor (line_of area.now s).line }
{
    match view_of(s, area) {
        LineView::Standing(l) if l.start <= floor => Err(held_by(l)),
        _ => Ok(()),
    }
}
