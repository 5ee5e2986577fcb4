// What entries would add to a store and free in it.
ghost use Rattle.std.specs.Prelude.{◌≡◌};
ghost use Rattle.laws.specs.Adds.{plus, minus};
ghost use Rattle.calls.specs.Weights.{Sums, LeftAsks};

use changes::{less, more};
use rules::Load;

// What an entry, or all of them, would add and free.
#[derive(Clone, Copy)]
pub struct Weight {
    pub added: Load,
    pub freed: Load,
}

impl Weight {
    // Of a replay, which adds nothing and frees nothing.
    pub const NONE: Weight = Weight {
        added: Load::NONE,
        freed: Load::NONE,
    };
}

pub fn plus_weight(a: Weight, b: Weight) -> Weight
    requires { Sums a b }
    ensures { (result.added ≡ plus a.added b.added) × (result.freed ≡ plus a.freed b.freed) }
{
    Weight {
        added: more(a.added, b.added),
        freed: more(a.freed, b.freed),
    }
}

// The load of the box that the whole call would leave, from the store before the call. "Room that was freed counts as free at once."
pub fn left_load(load: Load, w: Weight) -> Load
    requires { LeftAsks load w }
    ensures { result ≡ minus (plus load w.added) w.freed }
{
    let all = more(load, w.added);
    less(all, w.freed)
}
