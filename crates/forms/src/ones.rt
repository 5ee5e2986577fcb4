// A batch of one: the bytes of a single form's batch, in a buffer that the caller lends.
ghost use Rattle.std.specs.Prelude.{◌≡◌, ◌+◌, ◌≤◌, length};
ghost use Rattle.forms.specs.Bytes.{piece_bytes};
ghost use Rattle.forms.specs.Readers.{when};
ghost use Rattle.forms.specs.Ones.{fitted, one_mutation, one_key};
ghost use Rattle.forms.specs.Writers.{Laid};

use crate::number::Width;
use crate::writers::{put_byte, put_digits, put_piece};

// What goes behind a length byte: all that fits one, and else nothing.
fn fitting(s: &[u8]) -> &[u8]
    ensures { result.now ≡ fitted s.now }
{
    if 255 < s.len() {
        return &[];
    }
    s
}

// Behind their length byte, the bytes that fit one.
fn put_fitting(out: &mut [u8], at: usize, s: &[u8]) -> usize
    requires { at + 256 ≤ length out.old }
    ensures { Laid at (length (fitted s.now) + 1) (piece_bytes (fitted s.now)) out.old result out.new }
{
    put_piece(out, at, fitting(s))
}

// A mutation batch of one entry, over the front of the buffer; how many bytes it has. Whether it puts and the row are two arguments, as in the
// single call, where "a Delete's row argument is ignored": it ends here.
pub fn one_mutation(out: &mut [u8], key: &[u8], put: bool, row: &[u8]) -> usize
    requires { 515 ≤ length out.old }
    ensures { Laid 0 (length (one_mutation (record { key = key.now; row = when put row.now }))) (one_mutation (record { key = key.now; row = when put row.now })) out.old result out.new }
{
    let a = put_digits(out, 0, Width::Two, 1);
    let b = put_fitting(out, a, key);
    if !put {
        return put_byte(out, b, 2);
    }
    let c = put_byte(out, b, 1);
    put_fitting(out, c, row)
}

// A key batch of one key, over the front of the buffer; how many bytes it has.
pub fn one_key(out: &mut [u8], key: &[u8]) -> usize
    requires { 258 ≤ length out.old }
    ensures { Laid 0 (length (one_key key.now)) (one_key key.now) out.old result out.new }
{
    let a = put_digits(out, 0, Width::Two, 1);
    put_fitting(out, a, key)
}
