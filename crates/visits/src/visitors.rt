// What a visitor asks of the box, and the support desk, and what is shown. Nothing here changes the store.
use crate::hall::Hall;
use crate::telling::{say_bytes, say_label, say_name, say_refusal};
use forms::Width;
use mvcc::{AREA, Bounds, Reading, RowSeen};

// A read's answer; a row that is shown is taken from the store's own bytes.
fn say_seen(rt: &impl Print, area: &[u8], seen: RowSeen) {
    match seen {
        Ok(Some(_)) => say_label(rt, mvcc::row_of(area, seen)),
        Ok(None) => {
            let _ = println!(rt; "nothing to see");
        }
        Err(refusal) => say_refusal(rt, refusal),
    }
}

fn say_read(rt: &impl Print, key: &[u8], moment: u64) {
    let _ = print!(rt; "a visitor reads the ");
    say_name(rt, key);
    let _ = print!(rt; " at moment {moment}: ");
}

// What the read answered is told, and handed on.
pub fn asks_key(rt: &impl Print, hall: &Hall, key: &[u8], moment: u64) -> Reading {
    say_read(rt, key, moment);
    let reading = mvcc::read(&hall.store, &hall.area, key, moment);
    say_seen(rt, &hall.area, reading.seen);
    reading
}

// "The support desk wants to see which keys are slow."
pub fn say_effort(rt: &impl Print, key: &[u8], moment: u64, records: usize) {
    let _ = print!(rt; "the support desk asks how many records a read of the ");
    say_name(rt, key);
    let _ = println!(rt; " at moment {moment} looks at: {records}");
}

// One row of a page, "key length byte, key, row length byte, row", and the place after it; nothing where the page ends before it does.
fn say_row(rt: &impl Print, page: &[u8], at: usize) -> Option<usize> {
    let key = forms::part_at(page, at)?;
    let row = forms::part_at(page, key.end())?;
    let _ = print!(rt; "    ");
    say_name(rt, key.of(page));
    let _ = print!(rt; ": ");
    say_label(rt, row.of(page));
    Some(row.end())
}

// "then a byte, 1 if more, else 0"
fn say_more(rt: &impl Print, page: &[u8], at: usize) {
    let _ = match page.get(at) {
        Some(0) => println!(rt; "    and no more behind them"),
        Some(_) => println!(rt; "    and more behind them"),
        None => Ok(()),
    };
}

// "2-byte count; rows .."
fn say_page(rt: &impl Print, page: &[u8]) {
    let rows = forms::number_at(page, 0, Width::Two).unwrap_or(0);
    let _ = println!(rt; "{rows} rows");
    let mut at = 2;
    for _ in 0..rows {
        let Some(next) = say_row(rt, page, at) else {
            return;
        };
        at = next;
    }
    say_more(rt, page, at);
}

// A page of the whole hall, of at most 8 rows and 1,000 bytes.
pub fn asks_page(rt: &impl Print, hall: &Hall, moment: u64) {
    let _ = print!(rt; "a visitor asks for a page at moment {moment}: ");
    let all = Bounds {
        start: None,
        end: None,
        resume: None,
    };
    let mut out = [0u8; 2048];
    match mvcc::scan_page(&hall.store, &hall.area, moment, 8, 1000, all, &mut out) {
        Ok(n) => say_page(rt, &out[..n]),
        Err(refusal) => say_refusal(rt, refusal),
    }
}

// "whether bone n is shown"
fn say_bone(rt: &impl Print, row: &[u8], n: u64) {
    let _ = print!(rt; "a visitor asks whether bone {n} of it is shown: ");
    match mvcc::bone_shown(row, n) {
        Ok(shown) => {
            let word = if shown { "yes" } else { "no" };
            let _ = println!(rt; "{word}");
        }
        Err(refusal) => say_refusal(rt, refusal),
    }
}

// "how many bones are shown"
fn say_bones(rt: &impl Print, row: &[u8]) {
    let _ = print!(rt; "a visitor asks how many bones of it are shown: ");
    match mvcc::bones_shown(row) {
        Ok(shown) => {
            let _ = println!(rt; "{shown}");
        }
        Err(refusal) => say_refusal(rt, refusal),
    }
}

// Both questions are asked of a row alone: here of the one that a read shows, which is a part of the area.
pub fn asks_bones(rt: &impl Print, area: &[u8; AREA], reading: Reading) {
    let row = mvcc::row_of(area, reading.seen);
    say_bone(rt, row, 3);
    say_bone(rt, row, 4);
    say_bones(rt, row);
}

// What the box holds, from its statistics, behind any bytes.
pub fn asks_figures(rt: &impl Print, hall: &Hall, when: &[u8]) {
    let stats = mvcc::stats(&hall.store, &hall.area);
    let records = stats.records.all;
    let locks = stats.locks;
    let rows = stats.defaults.all;
    say_bytes(rt, when);
    let _ = println!(rt; "{records} records, {locks} locks, {rows} rows");
}
