// Prewrite of a single entry: a batch of one.
ghost use Rattle.rules.specs.Outcomes.{outcome};
ghost use Rattle.rules.specs.Prewrite.{prewrite};
ghost use Rattle.store.specs.View.{box_of};
ghost use Rattle.store.specs.Made.{Made};
ghost use Rattle.calls.specs.Settled.{Settled};
ghost use Rattle.prewrites.specs.Checks.{with_primary, entry_of};

use crate::batch::prewrite_batch;
use forms::one_mutation;
use rules::Refusal;
use store::{AREA, Store};

// "the single form disappears as a step of its own and is a batch of one"; "a Delete's row argument is ignored": it is not in the batch.
pub fn prewrite(
    store: &mut Store,
    area: &mut [u8; AREA],
    txn: u64,
    start: u64,
    ttl: u64,
    primary: &[u8],
    key: &[u8],
    put: bool,
    row: &[u8],
) -> Result<(), Refusal>
    requires { Made store.old area.old }
    ensures { Settled store.old area.old (prewrite store.old.floor (with_primary (record { txn = txn; start = start; ttl = ttl }) primary.now) (entry_of key.now put row.now) (box_of store.old area.old)) (record { store = store.new; answer = outcome result }) area.new }
{
    let mut batch = [0u8; 515];
    let n = one_mutation(&mut batch, key, put, row);
    prewrite_batch(store, area, txn, start, ttl, primary, &batch[..n])
}
