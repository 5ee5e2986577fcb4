// The entries of an image, each written from the stretch of its line.
ghost use Rattle.std.specs.Prelude.{◌+◌, length};
ghost use Rattle.forms.specs.Bytes.{piece_bytes};
ghost use Rattle.forms.specs.Writers.{Laid};
ghost use Rattle.rules.specs.Capture.{default_bytes};
ghost use Rattle.store.specs.View.{key_of, line_of};
ghost use Rattle.picks.specs.Lines.{row_at, entry_bytes};
ghost use Rattle.captures.specs.Asks.{KeyAsks, EntryAsks};

use forms::put_piece;
use picks::row_len;
use rules::{Record, put_record};
use store::views::eight_at;
use store::{LineView, Slot, place_of, put_intent, view_of};

// "key length, key"
fn put_key(out: &mut [u8], at: usize, area: &[u8], s: Slot) -> usize
    requires { KeyAsks area.now s at out.old }
    ensures { Laid at (s.len + 1) (piece_bytes (key_of area.now s)) out.old result out.new }
{
    let p = place_of(s);
    put_piece(out, at, &area[p..p + s.len as usize])
}

// A line's key, and its lock or its record.
pub(crate) fn put_line(out: &mut [u8], at: usize, area: &[u8], s: Slot) -> usize
    requires { EntryAsks area.now s (entry_bytes (line_of area.now s)) at out.old }
    ensures { Laid at (length (entry_bytes (line_of area.now s))) (entry_bytes (line_of area.now s)) out.old result out.new }
{
    let a = put_key(out, at, area, s);
    let line = view_of(s, area);
    match line {
        LineView::Standing(l) => put_intent(out, a, area, l),
        LineView::Finished(w) => {
            let said = Record {
                stamp: w.stamp,
                start: w.start,
                commit: w.stamp,
                kind: w.kind,
            };
            put_record(out, a, said)
        }
    }
}

// "key length, key, 8-byte start, row length, row": what a Put line carries
pub(crate) fn put_default(out: &mut [u8], at: usize, area: &[u8], s: Slot) -> usize
    requires { EntryAsks area.now s (default_bytes (row_at area.now s)) at out.old }
    ensures { Laid at (length (default_bytes (row_at area.now s))) (default_bytes (row_at area.now s)) out.old result out.new }
{
    let k = place_of(s);
    let p = k + s.len as usize;
    let start = eight_at(area, p + 8);
    let f = p + 16;
    let e = f + row_len(s);
    rules::put_default(out, at, &area[k..p], start, &area[f..e])
}
