// "One intent at a point: 1; no lock or one above the moment, nothing; unsound, 9; else the lock, its primary a stretch of the store's
// bytes." A store's locks are sound: no step tests it.
ghost use Rattle.rules.specs.Intent.{intent_at};
ghost use Rattle.store.specs.View.{box_of};
ghost use Rattle.store.specs.Made.{Made};
ghost use Rattle.reads.specs.Seen.{PointedAs, PointedBy};

use crate::seen::{LockSeen, ShownLock};
use forms::Part;
use rules::Refusal;
use store::{AREA, LockView, Store};

// What is shown, by the lock of the key.
fn lock_seen(lock: Option<LockView>, moment: u64) -> LockSeen
    ensures { PointedBy lock moment result }
{
    let Some(l) = lock else {
        return Ok(None);
    };
    if moment < l.start {
        return Ok(None);
    }
    Ok(Some(ShownLock {
        txn: l.txn,
        start: l.start,
        ttl: l.ttl,
        kind: l.kind,
        primary: Part {
            at: l.at,
            len: l.len,
        },
    }))
}

pub fn intent_for_read(store: &Store, area: &[u8; AREA], key: &[u8], moment: u64) -> LockSeen
    requires { Made store.now area.now }
    ensures { PointedAs (intent_at key.now moment (box_of store.now area.now)) area.now result }
{
    if !forms::key_in_form(key) {
        return Err(Refusal::KeyForm);
    }
    let found = lookups::look_up(store, area, key, 0, moment);
    lock_seen(found.lock, moment)
}
