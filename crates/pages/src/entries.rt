// An entry of a page: "each key length byte, key, row length byte, row"; "An intent page has, after each key, the lock as in the image".
ghost use Rattle.std.specs.Prelude.{◌+◌, length};
ghost use Rattle.forms.specs.Bytes.{bytes_at, piece_bytes};
ghost use Rattle.forms.specs.Writers.{Laid};
ghost use Rattle.walks.specs.Walked.{entry_bytes};
ghost use Rattle.store.specs.Stretches.{StretchAsks};
ghost use Rattle.pages.specs.Asks.{EntryAsks};

use forms::put_piece;
use store::{LineView, Slot, place_of, put_intent, view_of};

// "a length byte and its bytes", of a stretch of the area
fn put_stretch(out: &mut [u8], at: usize, area: &[u8], from: usize, len: usize) -> usize
    requires { StretchAsks area.now from len 1 at out.old }
    ensures { Laid at (len + 1) (piece_bytes (bytes_at area.now from len)) out.old result out.new }
{
    put_piece(out, at, &area[from..from + len])
}

// A line's key, and a record's row or an intent's lock.
pub(crate) fn put_entry(out: &mut [u8], at: usize, area: &[u8], s: Slot) -> usize
    requires { EntryAsks area.now s at out.old }
    ensures { Laid at (length (entry_bytes area.now s)) (entry_bytes area.now s) out.old result out.new }
{
    let a = put_stretch(out, at, area, place_of(s), s.len as usize);
    let line = view_of(s, area);
    match line {
        LineView::Standing(l) => put_intent(out, a, area, l),
        LineView::Finished(w) => put_stretch(out, a, area, w.rowat, w.rowlen),
    }
}
