// A change of the table, in numbers only.
ghost use Rattle.std.specs.Prelude.{◌≡◌};
ghost use Rattle.changes.specs.Changes.{changed, ChangeAsks};

use rules::Load;
use store::{Slot, Store};

// The slot that comes, its place, and the load and the top after it.
#[derive(Clone, Copy)]
pub struct NewSlot {
    pub to: usize,
    pub slot: Slot,
    pub load: Load,
    pub top: usize,
}

// Nothing changes; a slot comes where none goes; a slot comes and the one at the number's place goes.
#[derive(Clone, Copy)]
pub enum Change {
    Stays,
    Inserts(NewSlot),
    Replaces(usize, NewSlot),
}

// A slot that comes moves those from its place on by one; where one goes for it, those between the two places close up.
pub fn make_change(store: &mut Store, change: Change)
    requires { ChangeAsks store.old change }
    ensures { store.new ≡ changed store.old change }
{
    match change {
        Change::Stays => {}
        Change::Inserts(new) => {
            let n = store.load.lines;
            store.lines.copy_within(new.to..n, new.to + 1);
            store.lines[new.to] = new.slot;
            store.load = new.load;
            store.top = new.top;
        }
        Change::Replaces(from, new) => {
            store.lines.copy_within(from + 1..new.to, from);
            store.lines[new.to - 1] = new.slot;
            store.load = new.load;
            store.top = new.top;
        }
    }
}
