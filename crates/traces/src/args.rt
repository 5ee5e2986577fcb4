// The arguments of a call, found in its bytes.
ghost use Rattle.std.specs.Prelude.{◌<◌, ◌^◌};
ghost use Rattle.traces.specs.Ops.{is_long};
ghost use Rattle.traces.specs.Taken.{first_width, buffer_below};

use crate::op::Op;
use rules::Kind;

// An argument that the call has not is 0, or a Delete, or absent, or no bytes; the table of an image is the first number.
#[derive(Clone, Copy)]
pub struct Args<'a> {
    pub op: Op,
    pub first: u64,
    pub second: u64,
    pub third: u64,
    pub kind: Kind,
    pub primary: &'a [u8],
    pub key: &'a [u8],
    pub row: &'a [u8],
    pub from: Option<&'a [u8]>,
    pub to: Option<&'a [u8]>,
    pub resume: Option<&'a [u8]>,
    pub buffer: usize,
    pub rest: &'a [u8],
    pub ghost first_fits: { first < 256 ^ first_width (is_long op) },
    pub ghost buffer_fits: { buffer < buffer_below (is_long op) },
}
