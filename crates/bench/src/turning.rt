// The turns: each makes every call of the input once, each call on the same box.
ghost use Rattle.std.specs.Prelude.{◌≡◌, length};
ghost use Rattle.store.specs.Made.{Made};
ghost use Rattle.bench.specs.Asks.{TurnAsks};

use crate::asked::{Asked, first_call};
use crate::changing::{
    commit_once, copy_below, pair_once, prewrite_once, restore_once, rollback_once, step_once,
};
use crate::shows::{collect_once, image_once, page_once, read_once, stats_once};
use crate::ways::{Change, Show, Way};
use mvcc::{AREA, Store};

// What the calls are made on: a store, its area, and the image that it was restored from.
#[derive(Clone, Copy)]
pub struct Subject<'a> {
    pub store: &'a Store,
    pub area: &'a [u8; AREA],
    pub image: &'a [u8],
}

// A page or an image is written over the front of `out`. The moment is the call's and one above it, turn about: no record of the boxes stands
// between the two.
fn show_call(
    store: &Store,
    area: &[u8; AREA],
    out: &mut [u8],
    show: Show,
    turn: u64,
    asked: Asked,
) -> u64
    requires { Made store.now area.now }
{
    let moment = asked.one.wrapping_add(turn % 2);
    match show {
        Show::Nothing => asked.one,
        Show::Read => read_once(store, area, asked.key, moment),
        Show::Page => page_once(store, area, out, asked.key, moment, asked.two),
        Show::Statistics => stats_once(store, area),
        Show::Image => image_once(store, area, out, asked.one),
        Show::Collection => collect_once(store, area, asked.one),
    }
}

fn change_call(
    store: &mut Store,
    area: &mut [u8; AREA],
    image: &[u8],
    change: Change,
    asked: Asked,
) -> u64
    requires { Made store.old area.old }
    ensures { Made store.new area.new }
{
    match change {
        Change::Nothing => asked.one,
        Change::Prewrite => prewrite_once(store, area, asked),
        Change::Commit => commit_once(store, area, asked),
        Change::PrewriteAndCommit => pair_once(store, area, asked),
        Change::Rollback => rollback_once(store, area, asked),
        Change::OneStep => step_once(store, area, asked),
        Change::Restore => restore_once(store, area, image),
    }
}

// A call that changes the store is made on a copy, so that all start from the same box. Only the bytes below the store's top are copied: a store
// depends on none above it.
fn change_on_copy(subject: Subject, copy: &mut [u8; AREA], change: Change, asked: Asked) -> u64
    requires { TurnAsks subject copy.old }
    ensures { length copy.new ≡ 131072 }
{
    let Subject { store, area, image } = subject;
    let mut store = *store;
    copy_below(area, copy, store.top);
    change_call(&mut store, copy, image, change, asked)
}

// One call, of either sort. What is shown is written where the others have their copy.
fn one_call(subject: Subject, copy: &mut [u8; AREA], way: Way, turn: u64, asked: Asked) -> u64
    requires { TurnAsks subject copy.old }
    ensures { length copy.new ≡ 131072 }
{
    match way {
        Way::Shows(show) => show_call(subject.store, subject.area, copy, show, turn, asked),
        Way::Changes(change) => change_on_copy(subject, copy, change, asked),
    }
}

fn one_turn(subject: Subject, copy: &mut [u8; AREA], way: Way, turn: u64, calls: &[u8]) -> u64
    requires { TurnAsks subject copy.old }
    ensures { length copy.new ≡ 131072 }
{
    let mut rest = calls;
    let mut sum: u64 = 0;
    // What is left is a slice that each call shortens: there is no index to count.
    while !rest.is_empty() {
        let (asked, after) = first_call(rest);
        sum = sum.wrapping_add(one_call(subject, copy, way, turn, asked));
        rest = after;
    }
    sum
}

// So many turns: the sum of what their calls are worth.
pub fn many_turns(
    subject: Subject,
    copy: &mut [u8; AREA],
    way: Way,
    turns: u64,
    calls: &[u8],
) -> u64
    requires { TurnAsks subject copy.old }
    ensures { length copy.new ≡ 131072 }
{
    let mut sum: u64 = 0;
    for turn in 1..=turns {
        sum = sum.wrapping_add(one_turn(subject, copy, way, turn, calls));
    }
    sum
}
