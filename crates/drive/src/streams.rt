// Traces in a stream: "any number of traces, each after a 4-byte length". Nothing is assumed of the input.
ghost use Rattle.drive.specs.Next.{NextIn};

use inputs::read_full;
use std::io::Read;

// What stands next in a stream: nothing more, a trace that is longer than the buffer, or a trace of so many bytes at the buffer's front.
#[derive(Clone, Copy)]
pub enum Next {
    End,
    Over,
    Trace(usize),
}

// Reads so many bytes and forgets them; false where the input ends before.
fn pass_over(input: &mut impl Read, len: usize, buffer: &mut [u8]) -> bool {
    let mut left = len;
    while buffer.len() < left {
        let n = read_full(input, buffer);
        if n == 0 {
            return false;
        }
        left -= n;
    }
    read_full(input, &mut buffer[..left]) == left
}

// The trace after the next length. One that is longer than the buffer is passed over; one that the input ends in is none.
pub fn next_trace(input: &mut impl Read, buffer: &mut [u8]) -> Next
    ensures { NextIn result buffer.new }
{
    let mut head = [0u8; 4];
    if read_full(input, &mut head) < 4 {
        return Next::End;
    }
    let len = u32::from_be_bytes(head) as usize;
    if buffer.len() < len {
        return if pass_over(input, len, buffer) {
            Next::Over
        } else {
            Next::End
        };
    }
    if read_full(input, &mut buffer[..len]) < len {
        return Next::End;
    }
    Next::Trace(len)
}
