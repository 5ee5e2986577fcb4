// What a call's answer is worth: a number that depends on it, so that no call can be left out, and that the paper's answer gives too.
use mvcc::{Refusal, RowSeen};
use rules::Load;

// A refusal's number, a thousand times.
pub fn of_refusal(refusal: Refusal) -> u64 {
    u64::from(refusal.number()) * 1000
}

pub fn of_answer(answer: Result<(), Refusal>) -> u64 {
    match answer {
        Ok(()) => 0,
        Err(refusal) => of_refusal(refusal),
    }
}

// Of a page, an image or a one-step batch: the count.
pub fn of_count(answer: Result<usize, Refusal>) -> u64 {
    match answer {
        Ok(count) => count as u64,
        Err(refusal) => of_refusal(refusal),
    }
}

// Of a read: 1 where nothing is shown, 2 and the row's length where a row is.
pub fn of_seen(seen: RowSeen, row: &[u8]) -> u64 {
    match seen {
        Ok(None) => 1,
        Ok(Some(_)) => 2u64.wrapping_add(row.len() as u64),
        Err(refusal) => of_refusal(refusal),
    }
}

// Of a change, beside its answer: the four tallies of the store that it leaves.
pub fn of_load(load: Load) -> u64 {
    (load.lines as u64)
        .wrapping_add(load.locks as u64)
        .wrapping_add(load.defaults as u64)
        .wrapping_add(load.bytes as u64)
}
