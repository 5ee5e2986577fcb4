// Writers of what the page and the image hold, from a place on; each says where its bytes end.
ghost use Rattle.std.specs.Prelude.{◌+◌, ◌≤◌, length};
ghost use Rattle.forms.specs.Writers.{Laid, PieceAsks};
ghost use Rattle.rules.specs.Written.{lock_bytes};
ghost use Rattle.rules.specs.Capture.{record_bytes, default_bytes};

use crate::records::{Kind, Record};
use forms::{Width, put_byte, put_digits, put_piece};

// "Lock: 8-byte transaction, primary length, primary, 8-byte start, 8-byte time to live, kind byte"
pub fn put_lock(
    out: &mut [u8],
    at: usize,
    txn: u64,
    primary: &[u8],
    start: u64,
    ttl: u64,
    kind: Kind,
) -> usize
    requires { PieceAsks primary.now (length primary.now + 26) at out.old }
    ensures { Laid at (length primary.now + 26) (lock_bytes (record { txn = txn; primary = primary.now; start = start; ttl = ttl; kind = kind })) out.old result out.new }
{
    let a = put_digits(out, at, Width::Eight, txn);
    let b = put_piece(out, a, primary);
    let c = put_digits(out, b, Width::Eight, start);
    let d = put_digits(out, c, Width::Eight, ttl);
    put_byte(out, d, u8::from(kind))
}

// "8-byte write stamp, start, commit, kind byte"
pub fn put_record(out: &mut [u8], at: usize, w: Record) -> usize
    requires { at + 25 ≤ length out.old }
    ensures { Laid at 25 (record_bytes w) out.old result out.new }
{
    let a = put_digits(out, at, Width::Eight, w.stamp);
    let b = put_digits(out, a, Width::Eight, w.start);
    let c = put_digits(out, b, Width::Eight, w.commit);
    put_byte(out, c, u8::from(w.kind))
}

// "key length, key, 8-byte start, row length, row"
pub fn put_default(out: &mut [u8], at: usize, key: &[u8], start: u64, row: &[u8]) -> usize
    requires { PieceAsks key.now (length key.now + length row.now + 10) at out.old × (length row.now ≤ 255) }
    ensures { Laid at (length key.now + length row.now + 10) (default_bytes (record { key = key.now; start = start; row = row.now })) out.old result out.new }
{
    let a = put_piece(out, at, key);
    let b = put_digits(out, a, Width::Eight, start);
    put_piece(out, b, row)
}
