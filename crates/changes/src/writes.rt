// Lines that come into the area: each function says where its bytes end.
ghost use Rattle.std.specs.Prelude.{◌+◌, ◌≤◌, length};
ghost use Rattle.forms.specs.Bytes.{bytes_at};
ghost use Rattle.changes.specs.Writes.{Headed, LockStands, RecordStands};

use forms::{Width, put_bytes, put_digits, put_own};

// What every line begins with: its key, then its transaction or stamp, then its start.
fn append_head(area: &mut [u8], top: usize, key: &[u8], first: u64, start: u64) -> usize
    requires { top + length key.now + 8 + 8 ≤ length area.old }
    ensures { Headed area.old top key.now first start result area.new }
{
    let at = put_bytes(area, top, key);
    let next = put_digits(area, at, Width::Eight, first);
    put_digits(area, next, Width::Eight, start)
}

pub fn append_lock(
    area: &mut [u8],
    top: usize,
    key: &[u8],
    txn: u64,
    start: u64,
    row: &[u8],
    ttl: u64,
    primary: &[u8],
) -> usize
    requires { top + length key.now + 8 + 8 + length row.now + 8 + length primary.now ≤ length area.old }
    ensures { LockStands area.old top key.now txn start row.now ttl primary.now result area.new }
{
    let at = append_head(area, top, key, txn, start);
    let mid = put_bytes(area, at, row);
    let last = put_digits(area, mid, Width::Eight, ttl);
    put_bytes(area, last, primary)
}

pub fn append_record(
    area: &mut [u8],
    top: usize,
    key: &[u8],
    stamp: u64,
    start: u64,
    row: &[u8],
) -> usize
    requires { top + length key.now + 8 + 8 + length row.now ≤ length area.old }
    ensures { RecordStands area.old top key.now stamp start row.now result area.new }
{
    let at = append_head(area, top, key, stamp, start);
    put_bytes(area, at, row)
}

// A record whose row is that of the lock before it, `rowlen` bytes from `rowat` on.
pub fn append_ended(
    area: &mut [u8],
    top: usize,
    key: &[u8],
    stamp: u64,
    start: u64,
    rowat: usize,
    rowlen: usize,
) -> usize
    requires { (rowat + rowlen ≤ top) × (top + length key.now + 8 + 8 + rowlen ≤ length area.old) }
    ensures { RecordStands area.old top key.now stamp start (bytes_at area.old rowat rowlen) result area.new }
{
    let at = append_head(area, top, key, stamp, start);
    put_own(area, at, rowat, rowlen)
}
