// The sections of an image: one walk over each judges its entries and lists their places.
ghost use Rattle.std.specs.Prelude.{◌≡◌, ◌≤◌, length};
ghost use Rattle.images.specs.Good.{form_of};
ghost use Rattle.images.specs.Sections.{Enough, Room, SpanAt, HeadAt, SectionsAt};

use crate::checks::{Form, good_at};
use crate::entries::Section;
use forms::number::{Width, number_at};

// A section: how many entries it has, where it ends, and the bytes of its keys and pieces.
#[derive(Clone, Copy)]
pub struct Span {
    pub count: usize,
    pub end: usize,
    pub bytes: usize,
}

// "2-byte count of defaults (..); 2-byte count of locks (..); 2-byte count of writes (..)": none where a section is not in form, or has an entry
// that is not good.
fn section_at(
    s: &[u8],
    at: usize,
    section: Section,
    form: Form,
    table: u64,
    places: &mut [u32],
) -> Option<Span>
    requires { Enough s.now (length places.old) × (at ≤ 75000000) }
    ensures { SpanAt (form_of form) section table s.now at result places.new }
{
    let count = number_at(s, at, Width::Two)? as usize;
    let mut end = at + 2;
    let mut bytes: usize = 0;
    for k in 0..count {
        let e = good_at(s, end, section, form, table)?;
        places[k] = end as u32;
        bytes += e.key.len + e.piece.len;
        end = e.next;
    }
    Some(Span { count, end, bytes })
}

// What stands before the sections, and where it ends.
#[derive(Clone, Copy)]
pub struct Head {
    pub table: u64,
    pub floor: u64,
    pub end: usize,
}

// "4-byte table number"; "The floor .. stands in the image, 8 bytes, after the table number". An old image has none.
fn head_at(s: &[u8], form: Form) -> Option<Head>
    ensures { HeadAt form s.now result }
{
    let table = number_at(s, 0, Width::Four)?;
    match form {
        Form::Old => Some(Head {
            table,
            floor: 0,
            end: 4,
        }),
        Form::New => {
            let floor = number_at(s, 4, Width::Eight)?;
            Some(Head {
                table,
                floor,
                end: 12,
            })
        }
    }
}

// An image in form whose entries are good, each by itself: its floor, how many defaults, locks and writes it has, where the writes begin, and the
// bytes of all keys and pieces.
#[derive(Clone, Copy)]
pub struct Sections {
    pub floor: u64,
    pub defaults: usize,
    pub locks: usize,
    pub writes: usize,
    pub writesat: usize,
    pub bytes: usize,
}

// "table number not zero"; "2-byte count of defaults ..; 2-byte count of locks ..; 2-byte count of writes ..", and "nothing may follow"
pub fn sections_of(
    s: &[u8],
    form: Form,
    defaults: &mut [u32],
    locks: &mut [u32],
    writes: &mut [u32],
) -> Option<Sections>
    requires { Room s.now defaults.old locks.old writes.old }
    ensures { SectionsAt form s.now result defaults.new locks.new writes.new }
{
    let head = head_at(s, form)?;
    if head.table == 0 {
        return None;
    }
    let of_defaults = section_at(s, head.end, Section::Default, form, head.table, defaults)?;
    let of_locks = section_at(s, of_defaults.end, Section::Lock, form, head.table, locks)?;
    let of_writes = section_at(s, of_locks.end, Section::Write, form, head.table, writes)?;
    if of_writes.end != s.len() {
        return None;
    }
    Some(Sections {
        floor: head.floor,
        defaults: of_defaults.count,
        locks: of_locks.count,
        writes: of_writes.count,
        writesat: of_locks.end,
        bytes: of_defaults.bytes + of_locks.bytes + of_writes.bytes,
    })
}
