// The calls that change the store, run: the public function of each is called with the call's arguments, and its answer is told.
ghost use Rattle.traces.specs.declared.op.Op.{Op};
ghost use Rattle.rules.specs.Outcomes.{outcome};
ghost use Rattle.traces.specs.Args.{call_as};
ghost use Rattle.store.specs.View.{state_shown};
ghost use Rattle.store.specs.Made.{Made};
ghost use Rattle.showing.specs.Told.{told};
ghost use Rattle.showing.specs.Ran.{RunAsks, RanAs};
ghost use Rattle.driving.specs.Changes.{changed_by, DoneAs};

use rules::{Kind, Refusal};
use showing::written;
use store::{AREA, Store};
use traces::{Args, ChangeOp, put_answer};

// The numbers `a`, `b` and `c` are the transaction, the start, and the time to live or the commit; of a collection `a` is the floor.
fn change(
    store: &mut Store,
    area: &mut [u8; AREA],
    args: &Args,
    op: ChangeOp,
) -> Result<(), Refusal>
    requires { Made store.old area.old }
    ensures { DoneAs (changed_by op args.now (state_shown store.old area.old)) (record { store = store.new; answer = outcome result }) area.new }
{
    let (a, b, c) = (args.first, args.second, args.third);
    let (primary, key, rest) = (args.primary, args.key, args.rest);
    match op {
        ChangeOp::Prewrite => {
            let put = args.kind == Kind::Put;
            prewrites::prewrite(store, area, a, b, c, primary, key, put, args.row)
        }
        ChangeOp::PrewriteBatch => prewrites::prewrite_batch(store, area, a, b, c, primary, rest),
        ChangeOp::Commit => commits::commit_intent(store, area, a, b, c, key),
        ChangeOp::CommitBatch => commits::commit_intents_batch(store, area, a, b, c, rest),
        ChangeOp::Rollback => rollbacks::rollback_intent(store, area, a, b, key),
        ChangeOp::RollbackBatch => rollbacks::rollback_intents_batch(store, area, a, b, rest),
        ChangeOp::Collect => collects::collect(store, area, a),
        ChangeOp::Restore => restores::restore(store, area, rest),
    }
}

// The answer is told, without count and payload.
pub(crate) fn run_change(
    store: &mut Store,
    area: &mut [u8; AREA],
    args: &Args,
    op: ChangeOp,
    out: &mut [u8],
) -> usize
    requires { RunAsks store.old area.old args.now (Op.Changes op) out.old }
    ensures { RanAs (told (call_as (Op.Changes op) args.now) args.now.buffer (state_shown store.old area.old)) out.old (record { store = store.new; len = result }) area.new out.new }
{
    let done = change(store, area, args, op);
    put_answer(out, done, 0, &[])
}

// "The count is the number of entries": a one-step batch tells it.
pub(crate) fn run_step(
    store: &mut Store,
    area: &mut [u8; AREA],
    args: &Args,
    out: &mut [u8],
) -> usize
    requires { RunAsks store.old area.old args.now Op.OneStep out.old }
    ensures { RanAs (told (call_as Op.OneStep args.now) args.now.buffer (state_shown store.old area.old)) out.old (record { store = store.new; len = result }) area.new out.new }
{
    let done = onesteps::commit_batch(store, area, args.first, args.second, args.third, args.rest);
    written(done, &[]).tell(out)
}
