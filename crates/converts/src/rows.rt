// The bytes of an old image with floor 0, and a zero count added to each row: each function says where its bytes end.
ghost use Rattle.std.specs.Prelude.{◌∷◌, [], ◌++◌, ◌+◌, length};
ghost use Rattle.forms.specs.Bytes.{piece_bytes};
ghost use Rattle.forms.specs.Writers.{Laid};
ghost use Rattle.rules.specs.Capture.{default_bytes};
ghost use Rattle.rules.specs.Convert.{with_count, converted_bytes};
ghost use Rattle.images.specs.Entries.{raw_of};
ghost use Rattle.images.specs.Good.{default_of};
ghost use Rattle.converts.specs.Grown.{rows_from, grown, RowAsks, DefaultAsks, RowsAsk, PutAsks};

use forms::{Width, put_byte, put_bytes, put_digits, put_piece};
use images::{ImageEntry, Section, entry_at};

// "adds a zero count to each row"
fn put_row(out: &mut [u8], at: usize, row: &[u8]) -> usize
    requires { RowAsks row.now at out.old }
    ensures { Laid at (length row.now + 2) (piece_bytes (row.now ++ (0 ∷ []))) out.old result out.new }
{
    let len = row.len() + 1;
    let a = put_byte(out, at, len as u8);
    let b = put_bytes(out, a, row);
    put_byte(out, b, 0)
}

// "key length, key, 8-byte start, row length, row"
fn put_default(out: &mut [u8], at: usize, s: &[u8], e: ImageEntry) -> usize
    requires { DefaultAsks s.now e at out.old }
    ensures { Laid at (e.key.len + e.piece.len + 11) (default_bytes (with_count (default_of (raw_of s.now e)))) out.old result out.new }
{
    let p = put_piece(out, at, e.key.of(s));
    let q = put_digits(out, p, Width::Eight, e.first);
    put_row(out, q, e.piece.of(s))
}

// The defaults, which begin at 6, and after them the bytes of locks and writes as they stand.
fn put_rows(out: &mut [u8], first: usize, s: &[u8], count: usize) -> usize
    requires { RowsAsk s.now count first out.old }
    ensures { Laid first (length (grown (rows_from s.now 6 count))) (grown (rows_from s.now 6 count)) out.old result out.new }
{
    let mut from: usize = 6;
    let mut at = first;
    for _ in 0..count {
        let Some(e) = entry_at(s, from, Section::Default) else {
            unreachable!()
        };
        at = put_default(out, at, s, e);
        from = e.next;
    }
    put_bytes(out, at, &s[from..])
}

// "4-byte table number; 2-byte count of defaults .."; "CR 4's converter writes floor 0"
pub(crate) fn put_converted(out: &mut [u8], s: &[u8], count: usize) -> usize
    requires { PutAsks s.now count out.old }
    ensures { Laid 0 (length (converted_bytes s.now)) (converted_bytes s.now) out.old result out.new }
{
    let a = put_bytes(out, 0, &s[..4]);
    let f = put_digits(out, a, Width::Eight, 0);
    let b = put_digits(out, f, Width::Two, count as u64);
    put_rows(out, b, s, count)
}
