// Restore's verdict from the image's bytes alone: "Any fault 13, then 11"; and of an image that has room, its places in order.
ghost use Rattle.std.specs.Prelude.{◌≤◌, length};
ghost use Rattle.verdicts.specs.Verdicts.{PlacesFor, DecideAsk, Decided};

use crate::outcome::ImageVerdict;
use faults::judge::judge;
use images::sections::Sections;
use rules::{Load, Refusal, load_fits};

// The verdict on an image s that was judged; of an accepted one the places of its defaults and of its lines, in order.
fn decide(
    s: &[u8],
    found: Sections,
    defaults: &[u32],
    sorted: &[u32],
    rows: &mut [u32],
    lines: &mut [u32],
) -> Result<ImageVerdict, Refusal>
    requires { DecideAsk s.now found defaults.now sorted.now rows.old lines.old }
    ensures { Decided s.now result rows.new lines.new }
{
    let count = found.locks + found.writes;
    let load = Load {
        lines: count,
        locks: found.locks,
        defaults: found.defaults,
        bytes: found.bytes,
    };
    if !load_fits(load) {
        return Err(Refusal::NoRoom);
    }
    rows[..found.defaults].copy_from_slice(&defaults[..found.defaults]);
    lines[..count].copy_from_slice(&sorted[..count]);
    Ok(ImageVerdict {
        load,
        floor: found.floor,
        writesat: found.writesat,
    })
}

// The verdict, with room for N places of each section, and for the M of all lines.
fn verdict_in<const N: usize, const M: usize>(
    s: &[u8],
    rows: &mut [u32],
    lines: &mut [u32],
) -> Result<ImageVerdict, Refusal>
    requires { PlacesFor s.now N M rows.old lines.old }
    ensures { Decided s.now result rows.new lines.new }
{
    let mut defaults = [0u32; N];
    let mut locks = [0u32; N];
    let mut writes = [0u32; N];
    let mut sorted = [0u32; M];
    let mut room = [0u32; M];
    match judge(
        s,
        &mut defaults,
        &mut locks,
        &mut writes,
        &mut sorted,
        &mut room,
    ) {
        Some(found) => decide(s, found, &defaults, &sorted, rows, lines),
        None => Err(Refusal::BadImage),
    }
}

// A small image does not pay for the places of a large one: an entry has at least 9 bytes.
pub fn verdict(s: &[u8], rows: &mut [u32], lines: &mut [u32]) -> Result<ImageVerdict, Refusal>
    requires { (1024 ≤ length rows.old) × (1024 ≤ length lines.old) }
    ensures { Decided s.now result rows.new lines.new }
{
    if s.len() <= 9216 {
        verdict_in::<1024, 2048>(s, rows, lines)
    } else {
        verdict_in::<65536, 131072>(s, rows, lines)
    }
}
