// "every write Put has its default": two writes of one start may share one, and a default may be left over.
ghost use Rattle.std.specs.Prelude.{◌≡◌};
ghost use Rattle.rules.specs.Restore.{has_default};
ghost use Rattle.orders.specs.Finds.{rows_at, PlaceAsks};
ghost use Rattle.converts.specs.Judged.{write_at, entry_has, writes_have, InOrder};

use images::{ImageEntry, Section, stood_at};
use orders::row_place;
use pairs::points_to;

fn entry_has(s: &[u8], defaults: &[u32], e: ImageEntry) -> bool
    requires { PlaceAsks s.now defaults.now e }
    ensures { result ≡ entry_has s.now defaults.now e }
{
    if !e.is_put() {
        return true;
    }
    let at = row_place(s, defaults, e, 0);
    at < defaults.len() && points_to(s, e, defaults[at])
}

fn write_has(s: &[u8], defaults: &[u32], place: u32) -> bool
    requires { InOrder s.now defaults.now }
    ensures { result ≡ has_default (rows_at s.now defaults.now) (write_at s.now place) }
{
    let e = stood_at(s, place, Section::Write);
    entry_has(s, defaults, e)
}

pub(crate) fn puts_have(s: &[u8], defaults: &[u32], writes: &[u32]) -> bool
    requires { InOrder s.now defaults.now }
    ensures { result ≡ writes_have s.now defaults.now writes.now }
{
    writes.iter().all(|place| write_has(s, defaults, *place))
}
