// The op bytes of the table of calls. An op byte without a line in op_of, here and in specs/Ops.antt, is unknown, and a trace that holds it is
// out of form.
ghost use Rattle.std.specs.Prelude.{◌≡◌};
ghost use Rattle.traces.specs.Ops.{known_op, op_of, is_long};
ghost use Rattle.traces.specs.Taken.{some_of};

// The calls that show something and leave the store as it was, by their names in the table.
#[derive(Clone, Copy)]
pub enum ShowOp {
    Read,
    Page,
    IntentPage,
    ConflictingIntents,
    OneIntent,
    Statistics,
    Marks,
}

// The calls that change the store and give no count.
#[derive(Clone, Copy)]
pub enum ChangeOp {
    Prewrite,
    PrewriteBatch,
    Commit,
    CommitBatch,
    Rollback,
    RollbackBatch,
    Collect,
    Restore,
}

// The calls that ask about a row, and need no store.
#[derive(Clone, Copy)]
pub enum AskOp {
    Bone,
    Bones,
}

// Every call. Those that write an image show it in a long buffer, and stand apart from those whose payload is short.
#[derive(Clone, Copy)]
pub enum Op {
    Shows(ShowOp),
    Changes(ChangeOp),
    OneStep,
    Asks(AskOp),
    Capture,
    Convert,
}

// Whether the call has a long buffer; its number, if it has one, is then a table.
pub(crate) fn is_long(op: Op) -> bool
    ensures { result ≡ is_long op }
{
    matches!(op, Op::Capture | Op::Convert)
}

// The table of calls: the call of an op byte, if there is one.
#[tactic(auto, unfolding(crate::specs::Ops::op_of))]
pub fn op_of(byte: u8) -> Option<Op>
    ensures { some_of result ≡ op_of byte }
{
    match byte {
        1 => Some(Op::Shows(ShowOp::Read)),
        2 => Some(Op::Shows(ShowOp::Page)),
        3 => Some(Op::Shows(ShowOp::IntentPage)),
        4 => Some(Op::Shows(ShowOp::ConflictingIntents)),
        5 => Some(Op::Shows(ShowOp::OneIntent)),
        6 => Some(Op::Changes(ChangeOp::Prewrite)),
        7 => Some(Op::Changes(ChangeOp::PrewriteBatch)),
        8 => Some(Op::Changes(ChangeOp::Commit)),
        9 => Some(Op::Changes(ChangeOp::CommitBatch)),
        10 => Some(Op::Changes(ChangeOp::Rollback)),
        11 => Some(Op::Changes(ChangeOp::RollbackBatch)),
        12 => Some(Op::OneStep),
        13 => Some(Op::Changes(ChangeOp::Collect)),
        17 => Some(Op::Asks(AskOp::Bone)),
        18 => Some(Op::Asks(AskOp::Bones)),
        32 => Some(Op::Changes(ChangeOp::Restore)),
        33 => Some(Op::Shows(ShowOp::Statistics)),
        34 => Some(Op::Shows(ShowOp::Marks)),
        35 => Some(Op::Capture),
        36 => Some(Op::Convert),
        _ => None,
    }
}

// Whether the call of an op byte exists.
pub fn known_op(byte: u8) -> bool
    ensures { result ≡ known_op byte }
{
    op_of(byte).is_some()
}
