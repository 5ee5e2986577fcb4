// Who holds a lock: whether it is the call's own, and answer 7: who holds the key, since when, for how long and for what.
ghost use Rattle.std.specs.Prelude.{◌≡◌};
ghost use Rattle.forms.specs.Bytes.{Bytes};
ghost use Rattle.rules.specs.Answers.{Held};
ghost use Rattle.rules.specs.Outcomes.{refusal};
ghost use Rattle.rules.specs.Box.{holder_of};
ghost use Rattle.rules.specs.Calls.{owns};
ghost use Rattle.store.specs.Views.{lock_in};

use crate::views::LockView;
use rules::{Holder, Refusal};

// "Answer 7 shall carry, besides transaction and start, the lock's time to live and kind, in every call that can give it." A holder has no
// bytes of the area.
pub fn held_by(l: LockView) -> Refusal
    ensures { (area : Bytes) → refusal result ≡ Held (holder_of (lock_in area l)) }
{
    Refusal::Locked(Holder {
        txn: l.txn,
        start: l.start,
        ttl: l.ttl,
        kind: l.kind,
    })
}

// Own means that both transaction and start are the call's.
pub fn owns(l: LockView, txn: u64, start: u64) -> bool
    ensures { (area : Bytes) → result ≡ owns txn start (lock_in area l) }
{
    l.txn == txn && l.start == start
}
