// Lines and defaults, each by key and start, held against each other: each list is walked once.
ghost use Rattle.std.specs.Prelude.{◌≡◌, ◌+◌, ◌≤◌, length};
ghost use Rattle.rules.specs.Restore.{like_default};
ghost use Rattle.images.specs.Entries.{raw_of};
ghost use Rattle.images.specs.Sections.{row_at};
ghost use Rattle.pairs.specs.Puts.{raw_pair, puts_match};

use forms::same;
use images::{ImageEntry, Section, stood_at};
use orders::line_at;

// Whether a line is of the key and start of the default at a place.
pub fn points_to(s: &[u8], e: ImageEntry, place: u32) -> bool
    requires { e.key.at + e.key.len ≤ length s.now }
    ensures { result ≡ like_default (raw_pair (raw_of s.now e)) (row_at s.now place) }
{
    let d = stood_at(s, place, Section::Default);
    e.second == d.first && same(e.key.of(s), d.key.of(s))
}

// "a Put lock without its default; a default to which no Put lock or Put record of its key and start points": each Put is of the next default's
// key and start, and no default is left.
pub fn puts_match(s: &[u8], writes: usize, defaults: &[u32], lines: &[u32]) -> bool
    ensures { result ≡ puts_match s.now writes defaults.now lines.now }
{
    let mut j: usize = 0;
    for place in lines {
        let e = line_at(s, *place, writes);
        if e.is_put() {
            if defaults.len() <= j || !points_to(s, e, defaults[j]) {
                return false;
            }
            j += 1;
        }
    }
    defaults.len() <= j
}
