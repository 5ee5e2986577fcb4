// An image judged whole: each entry by itself, and then its entries held against each other.
ghost use Rattle.images.specs.declared.checks.Form.TheVariants.{New};
ghost use Rattle.pairs.specs.Asks.{AlikeAsk, JudgeAsk};
ghost use Rattle.faults.specs.Judged.{Alike, Judged};

use crate::locks::locks_above;
use images::Form;
use images::sections::{Sections, sections_of};
use orders::{By, order, order_both};
use pairs::puts_match;

// The entries of an image held against each other: "no second default or write for one key and stamp, no second lock for a key, every write
// Put has its default"; "a Put lock without its default; a default to which no Put lock or Put record of its key and start points; two lines
// of one key and start"; and no lock at or below the image's floor. Each test stands by itself: it reads what the one before it sorted, which a
// chain of `&&` does not carry on.
fn entries_agree(
    s: &[u8],
    found: Sections,
    defaults: &mut [u32],
    locks: &[u32],
    writes: &[u32],
    lines: &mut [u32],
    room: &mut [u32],
) -> bool
    requires { AlikeAsk New s.now found defaults.old locks.now writes.now lines.old room.old }
    ensures { Alike s.now found defaults.old locks.now writes.now result defaults.new lines.new }
{
    if !locks_above(s, found.floor, locks) {
        return false;
    }
    if !order(s, By::Rows, defaults, room) {
        return false;
    }
    if !order_both(s, By::Pairs(found.writesat), locks, writes, lines, room) {
        return false;
    }
    if !puts_match(s, found.writesat, defaults, lines) {
        return false;
    }
    order_both(s, By::Lines(found.writesat), locks, writes, lines, room)
}

// The sections of a sound image, and the places of its defaults and of its lines in order. The five lists stay apart: a struct of them would be
// taken to pieces here, where each is cut to what was found. `convert_image` judges an old image by the same two steps, a function of its own: one for
// both would take the test as a closure over all five lists, and promise no more than what the closure's own contract says of them.
pub fn judge(
    s: &[u8],
    defaults: &mut [u32],
    locks: &mut [u32],
    writes: &mut [u32],
    lines: &mut [u32],
    room: &mut [u32],
) -> Option<Sections>
    requires { JudgeAsk s.now defaults.old locks.old writes.old lines.old room.old }
    ensures { Judged s.now result defaults.new lines.new }
{
    let found = sections_of(s, Form::New, defaults, locks, writes)?;
    if !entries_agree(
        s,
        found,
        &mut defaults[..found.defaults],
        &locks[..found.locks],
        &writes[..found.writes],
        &mut lines[..found.locks + found.writes],
        room,
    ) {
        return None;
    }
    Some(found)
}
