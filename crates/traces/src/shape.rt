// Which arguments each call has. Where a call has several, they stand in the order of the fields here: numbers, kind, primary, key, row,
// the three bounds and the buffer's length, the rest. A call that writes an image has a long buffer, and its number, if it has one, is a table.
ghost use Rattle.std.specs.Prelude.{◌≡◌};
ghost use Rattle.traces.specs.Shapes.{shape_of, with_key, with_numbers, with_row, with_page, with_rest};

use crate::op::{AskOp, ChangeOp, Op, ShowOp};

// Each argument is there or not by itself, so each has its flag; `args_for` reads them in one order.
#[derive(Clone, Copy)]
pub struct Shape {
    pub op: Op,
    pub numbers: u8,
    pub kind: bool,
    pub primary: bool,
    pub key: bool,
    pub row: bool,
    pub page: bool,
    pub rest: bool,
}

// Numbers alone.
fn with_numbers(op: Op, numbers: u8) -> Shape
    ensures { result ≡ with_numbers op numbers }
{
    Shape {
        op,
        numbers,
        kind: false,
        primary: false,
        key: false,
        row: false,
        page: false,
        rest: false,
    }
}

// Numbers, then a key; a prewrite has its kind and primary before it and its row after it.
fn with_key(op: Op, numbers: u8, prewrite: bool) -> Shape
    ensures { result ≡ with_key op numbers prewrite }
{
    Shape {
        kind: prewrite,
        primary: prewrite,
        key: true,
        row: prewrite,
        ..with_numbers(op, numbers)
    }
}

// Numbers, then a row.
fn with_row(op: Op, numbers: u8) -> Shape
    ensures { result ≡ with_row op numbers }
{
    Shape {
        row: true,
        ..with_numbers(op, numbers)
    }
}

// Numbers, then the bounds and the buffer of a page.
fn with_page(op: Op, numbers: u8) -> Shape
    ensures { result ≡ with_page op numbers }
{
    Shape {
        page: true,
        ..with_numbers(op, numbers)
    }
}

// Numbers, and the primary if there is one, then the rest of the call.
fn with_rest(op: Op, numbers: u8, primary: bool) -> Shape
    ensures { result ≡ with_rest op numbers primary }
{
    Shape {
        primary,
        rest: true,
        ..with_numbers(op, numbers)
    }
}

// The arguments of each call.
pub(crate) fn shape_of(op: Op) -> Shape
    ensures { result ≡ shape_of op }
{
    match op {
        Op::Shows(ShowOp::Read | ShowOp::OneIntent) => with_key(op, 1, false),
        Op::Shows(ShowOp::Page | ShowOp::ConflictingIntents) => with_page(op, 3),
        Op::Shows(ShowOp::IntentPage) => with_page(op, 1),
        Op::Shows(ShowOp::Statistics | ShowOp::Marks) => with_numbers(op, 0),
        Op::Changes(ChangeOp::Prewrite) => with_key(op, 3, true),
        Op::Changes(ChangeOp::PrewriteBatch) => with_rest(op, 3, true),
        Op::Changes(ChangeOp::Commit) => with_key(op, 3, false),
        Op::Changes(ChangeOp::CommitBatch) | Op::OneStep => with_rest(op, 3, false),
        Op::Changes(ChangeOp::Rollback) => with_key(op, 2, false),
        Op::Changes(ChangeOp::RollbackBatch) => with_rest(op, 2, false),
        Op::Changes(ChangeOp::Collect) | Op::Capture => with_numbers(op, 1),
        Op::Changes(ChangeOp::Restore) | Op::Convert => with_rest(op, 0, false),
        Op::Asks(AskOp::Bone) => with_row(op, 1),
        Op::Asks(AskOp::Bones) => with_row(op, 0),
    }
}
