// Rollback of a single key: a batch of one.
ghost use Rattle.rules.specs.Outcomes.{outcome};
ghost use Rattle.rules.specs.Rollback.{rollback};
ghost use Rattle.store.specs.View.{box_of};
ghost use Rattle.store.specs.Made.{Made};
ghost use Rattle.calls.specs.Settled.{Settled};

use crate::batch::rollback_intents_batch;
use forms::one_key;
use rules::Refusal;
use store::{AREA, Store};

// "the single form disappears as a step of its own and is a batch of one"
pub fn rollback_intent(
    store: &mut Store,
    area: &mut [u8; AREA],
    txn: u64,
    start: u64,
    key: &[u8],
) -> Result<(), Refusal>
    requires { Made store.old area.old }
    ensures { Settled store.old area.old (rollback store.old.floor txn start key.now (box_of store.old area.old)) (record { store = store.new; answer = outcome result }) area.new }
{
    let mut batch = [0u8; 258];
    let n = one_key(&mut batch, key);
    rollback_intents_batch(store, area, txn, start, &batch[..n])
}
