// One call, run on a store: its bytes are read, and the call that they say is run.
ghost use Rattle.traces.specs.Args.{call_of};
ghost use Rattle.store.specs.View.{state_shown};
ghost use Rattle.store.specs.Made.{Made};
ghost use Rattle.showing.specs.Told.{told_in};
ghost use Rattle.showing.specs.Ran.{RunAsks, RanAs, RunCall};

use crate::asks::{tell_ask, tell_convert};
use crate::changing::{run_change, run_step};
use rules::Refusal;
use showing::{run_capture, run_shown};
use store::{AREA, Store};
use traces::{Args, Op, put_answer};

// The call that the arguments say, by its op.
fn run_args(store: &mut Store, area: &mut [u8; AREA], args: &Args, out: &mut [u8]) -> usize
    requires { RunAsks store.old area.old args.now args.now.op out.old }
    ensures { RanAs (told_in (call_of args.now) (state_shown store.old area.old)) out.old (record { store = store.new; len = result }) area.new out.new }
{
    match args.op {
        Op::Shows(show) => run_shown(store, area, args, show, out),
        Op::Changes(change) => run_change(store, area, args, change, out),
        Op::OneStep => run_step(store, area, args, out),
        Op::Asks(ask) => tell_ask(ask, args.row, args.first, out),
        Op::Capture => run_capture(store, area, args.first as u32, args.buffer, out),
        Op::Convert => tell_convert(args.rest, args.buffer, out),
    }
}

// The longest answer: 38 bytes, and a long buffer of 262,144.
const LONGEST: usize = 262182;

// Runs the call on the store, and writes its answer over the front of `out`, whose length it gives. Bytes that are no call in form tell 6, and
// nothing is run; so is nothing where `out` is shorter than the longest answer.
pub fn run_call(store: &mut Store, area: &mut [u8; AREA], call: &[u8], out: &mut [u8]) -> usize
    requires { Made store.old area.old }
    ensures { RunCall store.old area.old call.now out.old (record { store = store.new; len = result }) area.new out.new }
{
    if out.len() < LONGEST {
        return 0;
    }
    let Some(args) = traces::args_of(call) else {
        return put_answer(out, Err(Refusal::BatchForm), 0, &[]);
    };
    run_args(store, area, &args, out)
}
