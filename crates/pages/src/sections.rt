// "Page: 2-byte count; rows ..; then a byte, 1 if more, else 0. Each section is written into the part of the buffer that remains after the
// section before; bytes beyond the page keep what they held."
ghost use Rattle.std.specs.Prelude.{length};
ghost use Rattle.forms.specs.Writers.{Laid};
ghost use Rattle.rules.specs.Written.{all_bytes, page_bytes};
ghost use Rattle.walks.specs.Walked.{same, entry_bytes, lines_in, page_of};
ghost use Rattle.pages.specs.Asks.{EntriesAsk, PageAsks};

use crate::entries::put_entry;
use forms::{Width, put_byte, put_digits};
use store::Slot;
use walks::Walked;

// The entries of these lines, one after the other.
fn put_entries(out: &mut [u8], area: &[u8], slots: &[Slot]) -> usize
    requires { EntriesAsk area.now slots.now out.old }
    ensures { Laid 0 (length (all_bytes (entry_bytes area.now) slots.now)) (all_bytes (entry_bytes area.now) slots.now) out.old result out.new }
{
    let mut at: usize = 0;
    for s in slots {
        at = put_entry(out, at, area, *s);
    }
    at
}

// The page; its last byte is "a byte, 1 if more, else 0".
pub(crate) fn put_page(out: &mut [u8], area: &[u8], w: &Walked) -> usize
    requires { PageAsks area.now (lines_in w.now) out.old }
    ensures { Laid 0 (length (page_bytes same (page_of area.now (lines_in w.now)))) (page_bytes same (page_of area.now (lines_in w.now))) out.old result out.new }
{
    let more = u8::from(w.more);
    let a = put_digits(out, 0, Width::Two, w.count as u64);
    let b = a + put_entries(&mut out[a..], area, w.listed());
    b + put_byte(&mut out[b..], 0, more)
}
