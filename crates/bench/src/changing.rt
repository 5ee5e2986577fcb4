// The calls that change the store. Each leaves an area that is as long, so that the next can be made on it.
ghost use Rattle.std.specs.Prelude.{◌≡◌, ◌≤◌, length, take};
ghost use Rattle.forms.specs.Writers.{Laid};
ghost use Rattle.store.specs.Made.{Made};

use crate::asked::Asked;
use crate::worths::{of_answer, of_count, of_load};
use mvcc::{AREA, Refusal, Store};

// The first `top` bytes of one area over those of another.
pub fn copy_below(from: &[u8], to: &mut [u8], top: usize)
    requires { (top ≤ length from.now) × (top ≤ length to.old) }
    ensures { Laid 0 top (take top from.now) to.old top to.new }
{
    to[..top].copy_from_slice(&from[..top]);
}

// A Put's prewrite.
fn prewrite(store: &mut Store, area: &mut [u8; AREA], asked: Asked) -> Result<(), Refusal>
    requires { Made store.old area.old }
    ensures { Made store.new area.new }
{
    mvcc::prewrite(
        store,
        area,
        asked.one,
        asked.two,
        asked.three,
        asked.primary,
        asked.key,
        true,
        asked.row,
    )
}

// A commit at one above the start.
fn commit(store: &mut Store, area: &mut [u8; AREA], asked: Asked) -> Result<(), Refusal>
    requires { Made store.old area.old }
    ensures { Made store.new area.new }
{
    let commit = asked.two.wrapping_add(1);
    mvcc::commit_intent(store, area, asked.one, asked.two, commit, asked.key)
}

// What a change is worth: its answer and the store that it leaves.
fn worth(answer: Result<(), Refusal>, store: &Store) -> u64 {
    of_answer(answer).wrapping_add(of_load(store.load))
}

pub fn prewrite_once(store: &mut Store, area: &mut [u8; AREA], asked: Asked) -> u64
    requires { Made store.old area.old }
    ensures { Made store.new area.new }
{
    worth(prewrite(store, area, asked), store)
}

pub fn commit_once(store: &mut Store, area: &mut [u8; AREA], asked: Asked) -> u64
    requires { Made store.old area.old }
    ensures { Made store.new area.new }
{
    worth(commit(store, area, asked), store)
}

// A prewrite, and its commit, whatever the prewrite answered.
pub fn pair_once(store: &mut Store, area: &mut [u8; AREA], asked: Asked) -> u64
    requires { Made store.old area.old }
    ensures { Made store.new area.new }
{
    let _ = prewrite(store, area, asked);
    commit_once(store, area, asked)
}

pub fn rollback_once(store: &mut Store, area: &mut [u8; AREA], asked: Asked) -> u64
    requires { Made store.old area.old }
    ensures { Made store.new area.new }
{
    let answer = mvcc::rollback_intent(store, area, asked.one, asked.two, asked.key);
    worth(answer, store)
}

pub fn step_once(store: &mut Store, area: &mut [u8; AREA], asked: Asked) -> u64
    requires { Made store.old area.old }
    ensures { Made store.new area.new }
{
    let commit = asked.two.wrapping_add(1);
    let answer = mvcc::commit_batch(store, area, asked.one, asked.two, commit, asked.row);
    of_count(answer).wrapping_add(of_load(store.load))
}

pub fn restore_once(store: &mut Store, area: &mut [u8; AREA], image: &[u8]) -> u64
    requires { Made store.old area.old }
    ensures { Made store.new area.new }
{
    let answer = mvcc::restore(store, area, image);
    worth(answer, store)
}
