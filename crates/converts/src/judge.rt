// An old image judged whole, by document 01's checks and with its own rows: neither CR 3's checks nor the room are asked of it.
ghost use Rattle.std.specs.Prelude.{◌≡◌};
ghost use Rattle.rules.specs.Image.{old_image};
ghost use Rattle.images.specs.declared.checks.Form.TheVariants.{Old};
ghost use Rattle.images.specs.Good.{form_of};
ghost use Rattle.images.specs.Sections.{is_good};
ghost use Rattle.pairs.specs.Asks.{AlikeAsk, JudgeAsk};
ghost use Rattle.converts.specs.Judged.{OldJudged};

use crate::puts::puts_have;
use images::Form;
use images::sections::{Sections, sections_of};
use orders::{By, order, order_both};

// "no second default or write for one key and stamp, no second lock for a key; every write Put has its default". Each test stands by itself: it
// reads what the one before it sorted, which a chain of `&&` does not carry on.
fn entries_good(
    s: &[u8],
    found: Sections,
    defaults: &mut [u32],
    locks: &[u32],
    writes: &[u32],
    lines: &mut [u32],
    room: &mut [u32],
) -> bool
    requires { AlikeAsk Old s.now found defaults.old locks.now writes.now lines.old room.old }
    ensures { result ≡ is_good (form_of Old) (old_image s.now) }
{
    if !order(s, By::Rows, defaults, room) {
        return false;
    }
    if !order_both(s, By::Lines(found.writesat), locks, writes, lines, room) {
        return false;
    }
    puts_have(s, defaults, writes)
}

// How many defaults an image has that can be converted; with room for the places of each section, and for those of all lines. The five lists stay
// apart, and the function too, as in `faults`: each list is cut to what was found.
fn judge_in(
    s: &[u8],
    defaults: &mut [u32],
    locks: &mut [u32],
    writes: &mut [u32],
    lines: &mut [u32],
    room: &mut [u32],
) -> Option<usize>
    requires { JudgeAsk s.now defaults.old locks.old writes.old lines.old room.old }
    ensures { OldJudged s.now result }
{
    let found = sections_of(s, Form::Old, defaults, locks, writes)?;
    if !entries_good(
        s,
        found,
        &mut defaults[..found.defaults],
        &locks[..found.locks],
        &writes[..found.writes],
        &mut lines[..found.locks + found.writes],
        room,
    ) {
        return None;
    }
    Some(found.defaults)
}

// A section has at most 65,535 entries.
pub(crate) fn old_image(s: &[u8]) -> Option<usize>
    ensures { OldJudged s.now result }
{
    let mut defaults = [0u32; 65536];
    let mut locks = [0u32; 65536];
    let mut writes = [0u32; 65536];
    let mut lines = [0u32; 131072];
    let mut room = [0u32; 131072];
    judge_in(
        s,
        &mut defaults,
        &mut locks,
        &mut writes,
        &mut lines,
        &mut room,
    )
}
