// Payloads: what a read, one intent, statistics and the marks show.
ghost use Rattle.std.specs.Prelude.{◌&&◌, length, leb};
ghost use Rattle.traces.specs.Put.{Put, room};
ghost use Rattle.traces.specs.Payloads.{nothing_payload, row_payload, lock_payload, numbers_bytes, stats_payload, marks_payload};

use forms::{Width, put_byte, put_bytes, put_digits};
use rules::{Kind, Marks, Stats};

// "the byte 0 where nothing is shown", and on a refusal
pub fn put_nothing(out: &mut [u8]) -> usize
    ensures { Put (room nothing_payload out.old) nothing_payload out.old result out.new }
{
    if out.is_empty() {
        return 0;
    }
    put_byte(out, 0, 0)
}

// "or 1 and the row"
pub fn put_row(out: &mut [u8], row: &[u8]) -> usize
    ensures { Put (room (row_payload row.now) out.old) (row_payload row.now) out.old result out.new }
{
    if out.len() <= row.len() {
        return 0;
    }
    let a = put_byte(out, 0, 1);
    put_bytes(out, a, row)
}

// "or 1 and the lock in the image's form". A primary of more than 255 bytes has no such form, and is not written.
pub fn put_lock(out: &mut [u8], txn: u64, primary: &[u8], start: u64, ttl: u64, kind: Kind) -> usize
    ensures { Put (leb (length primary.now) 255 && room (lock_payload txn primary.now start ttl kind) out.old) (lock_payload txn primary.now start ttl kind) out.old result out.new }
{
    if 255 < primary.len() || out.len() < primary.len() + 27 {
        return 0;
    }
    let a = put_byte(out, 0, 1);
    rules::put_lock(out, a, txn, primary, start, ttl, kind)
}

// Numbers of 8 bytes, one after the other.
fn put_numbers(out: &mut [u8], values: &[u64]) -> usize
    ensures { Put (room (numbers_bytes values.now) out.old) (numbers_bytes values.now) out.old result out.new }
{
    if out.len() / 8 < values.len() {
        return 0;
    }
    let mut at = 0;
    for value in values {
        at = put_digits(out, at, Width::Eight, *value);
    }
    at
}

// "keys with a default, defaults, locks, keys with a record, records; then for defaults and after that for records the chains of 1, of 2 to
// 4, of 5 to 16, above 16, and the longest: 15 numbers of 8 bytes"
pub fn put_stats(out: &mut [u8], stats: Stats) -> usize
    ensures { Put (room (stats_payload stats) out.old) (stats_payload stats) out.old result out.new }
{
    let d = stats.defaults;
    let w = stats.records;
    let values = [
        d.keys as u64,
        d.all as u64,
        stats.locks as u64,
        w.keys as u64,
        w.all as u64,
        d.one as u64,
        d.four as u64,
        d.sixteen as u64,
        d.above as u64,
        d.longest as u64,
        w.one as u64,
        w.four as u64,
        w.sixteen as u64,
        w.above as u64,
        w.longest as u64,
    ];
    put_numbers(out, &values)
}

// "Of the marks: two numbers."
pub fn put_marks(out: &mut [u8], marks: Marks) -> usize
    ensures { Put (room (marks_payload marks) out.old) (marks_payload marks) out.old result out.new }
{
    put_numbers(out, &[marks.txn, marks.stamp])
}
