// The calls that show something, run: each puts its payload into a buffer, which is told, and the store is as it was.
ghost use Rattle.traces.specs.declared.op.Op.{Op};
ghost use Rattle.traces.specs.Args.{call_as};
ghost use Rattle.store.specs.View.{state_shown};
ghost use Rattle.showing.specs.Told.{told};
ghost use Rattle.showing.specs.Ran.{RunAsks, RanAs, ShowAsks};
ghost use Rattle.showing.specs.Shows.{ShownTold};

use crate::replying::{show_lock, show_marks, show_read, show_stats};
use crate::shown::{Shown, written};
use bounds::Bounds;
use pages::{scan_conflicting_intents, scan_intent_page, scan_page};
use store::{AREA, Store};
use traces::{Args, ShowOp};

// The payload of the call that the arguments say. A page's lent buffer is the front of `payload`, and what is told is "the whole lent buffer as it
// stands after the call, refused or not".
fn show<'a>(
    store: &Store,
    area: &[u8; AREA],
    args: &Args,
    op: ShowOp,
    payload: &'a mut [u8],
) -> Shown<'a>
    requires { ShowAsks store.now area.now args.now payload.old }
    ensures { ShownTold (told (call_as (Op.Shows op) args.now) args.now.buffer (state_shown store.now area.now)) (state_shown store.now area.now) result }
{
    let (a, b, c) = (args.first, args.second, args.third);
    let bounds = Bounds {
        start: args.from,
        end: args.to,
        resume: args.resume,
    };
    let n = args.buffer;
    match op {
        ShowOp::Read => show_read(store, area, args.key, a, payload),
        ShowOp::Page => {
            let page = &mut payload[..n];
            let done = scan_page(store, area, a, b, c, bounds, page);
            written(done, page)
        }
        ShowOp::IntentPage => {
            let page = &mut payload[..n];
            let done = scan_intent_page(store, area, a, bounds, page);
            written(done, page)
        }
        ShowOp::ConflictingIntents => {
            let page = &mut payload[..n];
            let done = scan_conflicting_intents(store, area, a, b, c, bounds, page);
            written(done, page)
        }
        ShowOp::OneIntent => show_lock(store, area, args.key, a, payload),
        ShowOp::Statistics => show_stats(store, area, payload),
        ShowOp::Marks => show_marks(store, area, payload),
    }
}

// "each 0xEE before the call"
pub fn run_shown(store: &Store, area: &[u8; AREA], args: &Args, op: ShowOp, out: &mut [u8]) -> usize
    requires { RunAsks store.now area.now args.now (Op.Shows op) out.old }
    ensures { RanAs (told (call_as (Op.Shows op) args.now) args.now.buffer (state_shown store.now area.now)) out.old (record { store = store.now; len = result }) area.now out.new }
{
    let mut payload = [0xEEu8; 65535];
    show(store, area, args, op, &mut payload).tell(out)
}
