// A call's bytes, read: "A call is an op byte and its arguments".
ghost use Rattle.traces.specs.Calls.{call_from};
ghost use Rattle.traces.specs.Taken.{Ends};
ghost use Rattle.traces.specs.Args.{shaped, call_of};

use crate::args::Args;
use crate::op::op_of;
use crate::reader::Reader;
use crate::shape::{Shape, shape_of};
use forms::Width;

// The arguments that a shape names, to the end of the bytes.
fn args_for<'a>(bytes: &'a [u8], shape: Shape) -> Option<Args<'a>>
    ensures { Ends (shaped shape) call_of bytes.now result }
{
    let op = shape.op;
    let mut reader = Reader { left: bytes };
    let first = reader.first_if(0 < shape.numbers, op)?;
    let second = reader.number_if(1 < shape.numbers, Width::Eight)?;
    let third = reader.number_if(2 < shape.numbers, Width::Eight)?;
    let kind = reader.kind_if(shape.kind)?;
    let primary = reader.text_if(shape.primary)?;
    let key = reader.text_if(shape.key)?;
    let row = reader.text_if(shape.row)?;
    let from = reader.bound_if(shape.page)?;
    let to = reader.bound_if(shape.page)?;
    let resume = reader.bound_if(shape.page)?;
    let buffer = reader.buffer(op, shape.page)?;
    let rest = reader.rest_if(shape.rest)?;
    Some(Args {
        op,
        first,
        second,
        third,
        kind,
        primary,
        key,
        row,
        from,
        to,
        resume,
        buffer,
        rest,
    })
}

// The arguments that a call's bytes say; none where they are no call in form.
pub fn args_of<'a>(call: &'a [u8]) -> Option<Args<'a>>
    ensures { Ends call_from call_of call.now result }
{
    let (byte, arguments) = call.split_first()?;
    args_for(arguments, shape_of(op_of(*byte)?))
}
