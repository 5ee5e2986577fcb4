// What one line does to a page that has `count` entries of `sum` bytes by the paper's count.
ghost use Rattle.std.specs.Prelude.{◌≡◌, ◌+◌, ◌≤◌};
ghost use Rattle.turns.specs.Dues.{due_in};
ghost use Rattle.turns.specs.Turns.{turn_in, cost_of, CostIn, room_turn, add, turn_due};

use crate::asked::PageQuery;
use crate::dues::Due;
use rules::Refusal;
use store::{Line, Slot};

// The walk goes on without the line, stops with more, is refused, or adds it at its cost.
#[derive(Clone, Copy)]
pub enum Turn {
    On,
    Stop,
    Refuse(Refusal),
    Add(Slot, usize),
}

// "Cost is key plus row length"; of a lock, "key plus primary length plus 26".
fn cost_of(s: Slot) -> usize
    ensures { CostIn s.len s.line result }
{
    s.len as usize
        + match s.line {
            Line::Standing(l) => l.plen as usize + 26,
            Line::Finished(w) => w.rowlen as usize,
        }
}

// "With the row limit reached, stop with more. .. if the sum would pass the byte limit, 10 on an empty page, else stop with more."
fn room_turn(s: Slot, asked: &PageQuery, count: usize, sum: usize) -> Turn
    requires { sum ≤ 1048576 }
    ensures { turn_in result ≡ room_turn asked.now.limit asked.now.bytes count (sum + cost_of s) (add s) }
{
    let cost = cost_of(s);
    if asked.limit <= count as u64 {
        return Turn::Stop;
    }
    if asked.bytes < (sum + cost) as u64 {
        if count == 0 {
            return Turn::Refuse(Refusal::ByteLimit);
        }
        return Turn::Stop;
    }
    Turn::Add(s, cost)
}

// "its refusal refuses the page even if the page is already full. With no row, go on."
pub fn turn_of(inside: bool, due: Due, asked: &PageQuery, count: usize, sum: usize) -> Turn
    requires { sum ≤ 1048576 }
    ensures { turn_in result ≡ turn_due inside (due_in due) asked.now.limit asked.now.bytes count sum }
{
    if !inside {
        return Turn::On;
    }
    match (due.lets, due.line) {
        (Err(why), _) => Turn::Refuse(why),
        (Ok(()), None) => Turn::On,
        (Ok(()), Some(s)) => room_turn(s, asked, count, sum),
    }
}
