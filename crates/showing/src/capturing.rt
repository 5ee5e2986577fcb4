// The call that writes the image, run. Its buffer is an array of its own, so that no other call has to fill so many bytes.
ghost use Rattle.rules.specs.Call.{Call};
ghost use Rattle.store.specs.View.{state_shown};
ghost use Rattle.showing.specs.Told.{told};
ghost use Rattle.showing.specs.Ran.{CaptureAsks, RanAs};

use crate::shown::written;
use store::{AREA, Store};

// "the call is lent a buffer of that many bytes, each 0xEE before the call"; it is the front of an array of the most that may be lent.
pub fn run_capture(
    store: &Store,
    area: &[u8; AREA],
    table: u32,
    len: usize,
    out: &mut [u8],
) -> usize
    requires { CaptureAsks store.now area.now len out.old }
    ensures { RanAs (told (Call.Capture table) len (state_shown store.now area.now)) out.old (record { store = store.now; len = result }) area.now out.new }
{
    let mut longest = [0xEEu8; 262144];
    let image = &mut longest[..len];
    let done = captures::capture_snapshot_table(store, area, table, image);
    written(done, image).tell(out)
}
