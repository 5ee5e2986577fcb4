// Bytes into a buffer, from a place on; each function says where they end. All else stays as it was.
ghost use Rattle.std.specs.Prelude.{◌∷◌, [], ◌+◌, ◌≤◌, ◌<◌, length};
ghost use Rattle.forms.specs.Bytes.{bytes_at, piece_bytes};
ghost use Rattle.forms.specs.Numbers.{digits, width_of};
ghost use Rattle.forms.specs.Writers.{Laid, PieceAsks};

use crate::number::{Width, bytes_in};

#[tactic(auto, using(crate::proofs::WriterLaws::laid_byte))]
pub fn put_byte(out: &mut [u8], at: usize, b: u8) -> usize
    requires { at < length out.old }
    ensures { Laid at 1 (b ∷ []) out.old result out.new }
{
    out[at] = b;
    at + 1
}

// "Numbers are big-endian": the lowest bytes of a number.
pub fn put_digits(out: &mut [u8], at: usize, width: Width, value: u64) -> usize
    requires { at + width_of width ≤ length out.old }
    ensures { Laid at (width_of width) (digits (width_of width) value) out.old result out.new }
{
    put_bytes(out, at, &value.to_be_bytes()[8 - bytes_in(width)..])
}

pub fn put_bytes(out: &mut [u8], at: usize, src: &[u8]) -> usize
    requires { at + length src.now ≤ length out.old }
    ensures { Laid at (length src.now) src.now out.old result out.new }
{
    let n = src.len();
    out[at..at + n].copy_from_slice(src);
    at + n
}

// "a length byte and its bytes"
#[tactic(auto, using(crate::proofs::WriterLaws::laid_piece))]
pub fn put_piece(out: &mut [u8], at: usize, src: &[u8]) -> usize
    requires { PieceAsks src.now (length src.now + 1) at out.old }
    ensures { Laid at (length src.now + 1) (piece_bytes src.now) out.old result out.new }
{
    let a = put_byte(out, at, src.len() as u8);
    put_bytes(out, a, src)
}

// Bytes of the buffer itself, `len` of them from `from` on, which end before `at`.
pub fn put_own(out: &mut [u8], at: usize, from: usize, len: usize) -> usize
    requires { (from + len ≤ at) × (at + len ≤ length out.old) }
    ensures { Laid at len (bytes_at out.old from len) out.old result out.new }
{
    out.copy_within(from..from + len, at);
    at + len
}
