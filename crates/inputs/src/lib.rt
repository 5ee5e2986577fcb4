// Reading from a stream, as far as a buffer has room.
#![tactic(auto)]

ghost use Rattle.std.specs.Prelude.{◌≤◌, length, take};
ghost use Rattle.std.specs.Io.KnownBytes.{Consumes};

use std::io::Read;

// Reads until the buffer is full, the input ends or a read fails: so many bytes of the input stand at the buffer's front.
pub fn read_full<R: Read>(input: &mut R, buffer: &mut [u8]) -> usize
    ensures bound { result ≤ length buffer.new }
    ensures bytes { Consumes (R.remaining input.old) (R.remaining input.new) (take result buffer.new) }
{
    let mut done = 0;
    // A `while`, since a read says how far it went: there is no count before.
    while done < buffer.len() {
        match input.read(&mut buffer[done..]) {
            Ok(0) | Err(_) => return done,
            Ok(n) => done += n,
        }
    }
    done
}
