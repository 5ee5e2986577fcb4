// What the checks of all entries come to.
ghost use Rattle.calls.specs.Weights.{LeftAsks};
ghost use Rattle.calls.specs.Passes.{RoomJudged, verdict};

use crate::weights::{Weight, left_load};
use rules::{Load, Refusal, load_fits};

// "Then 11." The answer is whether the box becomes another one: where no entry adds a line each is a replay, and nothing changes.
pub fn judge(sum: Weight, load: Load) -> Result<bool, Refusal>
    requires { LeftAsks load sum }
    ensures { RoomJudged sum load (verdict result) }
{
    let left = left_load(load, sum);
    if !load_fits(left) {
        return Err(Refusal::NoRoom);
    }
    Ok(0 < sum.added.lines)
}
