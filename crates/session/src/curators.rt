// What a curator asks of the box. Each function says who asks for what, makes the call, and says what was answered: after a refusal the box is as it
// was.
use visits::{Hall, say_answer};

// How long a curator's locks are to stand.
const TTL: u64 = 60;

// What a curator's transaction is about.
fn work(txn: u64) -> &'static str {
    match txn {
        7 => "the jaw and the rib",
        _ => "the removal of the jaw",
    }
}

pub fn prewrites(
    rt: &impl Print,
    hall: &mut Hall,
    txn: u64,
    start: u64,
    primary: &[u8],
    batch: &[u8],
) {
    let work = work(txn);
    let _ = print!(rt; "curator {txn} prewrites {work}, starting at {start}: ");
    say_answer(
        rt,
        mvcc::prewrite_batch(
            &mut hall.store,
            &mut hall.area,
            txn,
            start,
            TTL,
            primary,
            batch,
        ),
    );
}

pub fn commits(rt: &impl Print, hall: &mut Hall, txn: u64, start: u64, commit: u64, keys: &[u8]) {
    let work = work(txn);
    let _ = print!(rt; "curator {txn} commits {work} at {commit}: ");
    say_answer(
        rt,
        mvcc::commit_intents_batch(&mut hall.store, &mut hall.area, txn, start, commit, keys),
    );
}

// "Lock and its row go, a Rollback record comes."
pub fn withdraws(rt: &impl Print, hall: &mut Hall, txn: u64, start: u64, key: &[u8]) {
    let work = work(txn);
    let _ = print!(rt; "curator {txn} withdraws {work}, started at {start}: ");
    say_answer(
        rt,
        mvcc::rollback_intent(&mut hall.store, &mut hall.area, txn, start, key),
    );
}

pub fn fills(rt: &impl Print, hall: &mut Hall, image: &[u8]) {
    let _ = print!(rt; "a second box is filled from the image: ");
    say_answer(rt, mvcc::restore(&mut hall.store, &mut hall.area, image));
}
