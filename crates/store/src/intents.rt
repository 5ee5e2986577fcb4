// An intent's lock, written from the stretch of its line: pages and images have it after the key.
ghost use Rattle.std.specs.Prelude.{◌+◌};
ghost use Rattle.forms.specs.Writers.{Laid};
ghost use Rattle.rules.specs.Written.{lock_bytes};
ghost use Rattle.store.specs.Views.{lock_in};
ghost use Rattle.store.specs.Stretches.{StretchAsks};

use crate::views::LockView;
use rules::put_lock;

// The lock of an intent, whose primary is a stretch of the area.
pub fn put_intent(out: &mut [u8], at: usize, area: &[u8], l: LockView) -> usize
    requires { StretchAsks area.now l.at l.len 26 at out.old }
    ensures { Laid at (l.len + 26) (lock_bytes (lock_in area.now l)) out.old result out.new }
{
    let primary = &area[l.at..l.at + l.len];
    put_lock(out, at, l.txn, primary, l.start, l.ttl, l.kind)
}
