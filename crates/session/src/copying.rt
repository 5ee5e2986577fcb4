// The hall's image: it is written, and a second box is filled from it, which then answers as the first.
use crate::curators::fills;
use visits::{Hall, asks_figures, asks_key, new_hall};

fn second_box(rt: &impl Print, image: &[u8], key: &[u8]) {
    let mut second = new_hall();
    fills(rt, &mut second, image);
    asks_key(rt, &second, key, 25);
    asks_figures(rt, &second, b"the second box: ");
}

pub fn copies_hall(rt: &impl Print, hall: &Hall, table: u32, key: &[u8]) {
    let mut out = [0u8; 1024];
    let n = mvcc::capture_snapshot_table(&hall.store, &hall.area, table, &mut out).unwrap_or(0);
    let _ = println!(rt; "the image of table {table}: {n} bytes");
    second_box(rt, &out[..n], key);
}
