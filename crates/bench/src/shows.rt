// The calls that leave the area as it was: those that show something, and a collection.
ghost use Rattle.store.specs.Made.{Made};

use crate::worths::{of_answer, of_count, of_load, of_seen};
use mvcc::{AREA, Bounds, Store};

pub fn read_once(store: &Store, area: &[u8; AREA], key: &[u8], moment: u64) -> u64
    requires { Made store.now area.now }
{
    let seen = mvcc::read(store, area, key, moment).seen;
    of_seen(seen, mvcc::row_of(area, seen))
}

// A page of so many rows from the key on, or from the first where it has no bytes, written over the front of `out`.
pub fn page_once(
    store: &Store,
    area: &[u8; AREA],
    out: &mut [u8],
    key: &[u8],
    moment: u64,
    rows: u64,
) -> u64
    requires { Made store.now area.now }
{
    let from = Bounds {
        start: if key.is_empty() { None } else { Some(key) },
        end: None,
        resume: None,
    };
    of_count(mvcc::scan_page(store, area, moment, rows, u64::MAX, from, out))
}

// The image of a table, written over the front of `out`. A number of more than 4 bytes is no table's.
pub fn image_once(store: &Store, area: &[u8; AREA], out: &mut [u8], table: u64) -> u64
    requires { Made store.now area.now }
{
    match u32::try_from(table) {
        Ok(table) => of_count(mvcc::capture_snapshot_table(store, area, table, out)),
        Err(_) => 0,
    }
}

pub fn stats_once(store: &Store, area: &[u8; AREA]) -> u64
    requires { Made store.now area.now }
{
    let s = mvcc::stats(store, area);
    (s.defaults.all as u64)
        .wrapping_add(s.records.all as u64)
        .wrapping_add(s.defaults.keys as u64)
        .wrapping_add(s.records.keys as u64)
        .wrapping_add(s.defaults.longest as u64)
        .wrapping_add(s.records.longest as u64)
}

// A collection reads the area and changes none of it; the store that it changes is a copy.
pub fn collect_once(store: &Store, area: &[u8; AREA], floor: u64) -> u64
    requires { Made store.now area.now }
{
    let mut store = *store;
    let answer = mvcc::collect(&mut store, area, floor);
    of_answer(answer).wrapping_add(of_load(store.load))
}
