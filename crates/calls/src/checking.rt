// The checking pass over a batch, of every call that adds and frees. Nothing is written before the last entry has passed.
ghost use Rattle.std.specs.Prelude.{ltb};
ghost use Rattle.seqs.specs.Tables.{All};
ghost use Rattle.rules.specs.Answers.{need};
ghost use Rattle.calls.specs.Passes.{verdict, Judged, Plan, items_of, Follows};

use crate::judged::judge;
use crate::steps::floor_step;
use crate::weights::{Weight, plus_weight};
use forms::Entry;
use rules::Refusal;
use store::Store;

// "before any entry is judged" 14; "then per entry ascending: ..": every entry on the store before the call, the whole list for one entry before
// the next; and then what all of them would add to its load and free of it. Whether the box becomes another one, or why the batch is refused.
pub fn check_each<F: Fn(Entry) -> Result<Weight, Refusal>>(
    store: &Store,
    start: u64,
    entries: &[Entry],
    check: F,
) -> Result<bool, Refusal>
    requires callable { All (F.pre check) entries.now }
    requires planned { (p : Plan) × Follows p store.now.load entries.now (F.post check) }
    ensures { (p : Plan) → Follows p store.now.load entries.now (F.post check) → Judged (need (ltb store.now.floor start) 14) p.steps.check p.apply p.box (items_of p entries.now) (verdict result) }
{
    floor_step(store.floor, start)?;
    let mut sum = Weight::NONE;
    for e in entries {
        let weight = check(*e)?;
        sum = plus_weight(sum, weight);
    }
    judge(sum, store.load)
}
