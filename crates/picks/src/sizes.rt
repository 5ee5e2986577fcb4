// How many entries each section of an image has, and how many bytes its entries take: known before the first byte is written.
ghost use Rattle.forms.specs.Bytes.{Bytes};
ghost use Rattle.picks.specs.Lines.{SlotIn, Lined};
ghost use Rattle.picks.specs.Sizes.{Small, LineAdded, RowAsks, RowAdded, CountAsks, LineCounted, SizesAre};

use crate::slots::{kind_of, of_table, row_len};
use rules::Kind;
use store::{Line, Slot};

#[derive(Clone, Copy)]
pub struct Sizes {
    pub defaults: usize,
    pub locks: usize,
    pub writes: usize,
    // of the locks' entries, and of all
    pub held: usize,
    pub bytes: usize,
}

// With the entry of a lock or of a write.
fn with_line(z: Sizes, s: Slot) -> Sizes
    requires { Small 4194304 z }
    ensures { (area : Bytes) → SlotIn area s → LineAdded area z s result }
{
    let key = s.len as usize;
    match s.line {
        Line::Standing(l) => {
            let size = key + l.plen as usize + 27;
            Sizes {
                locks: z.locks + 1,
                held: z.held + size,
                bytes: z.bytes + size,
                ..z
            }
        }
        Line::Finished(_) => Sizes {
            writes: z.writes + 1,
            bytes: z.bytes + key + 26,
            ..z
        },
    }
}

// With the default that a Put carries.
fn with_row(z: Sizes, s: Slot) -> Sizes
    requires { RowAsks z s }
    ensures { (area : Bytes) → SlotIn area s → RowAdded area z s result }
{
    match kind_of(s) {
        Kind::Put => Sizes {
            defaults: z.defaults + 1,
            bytes: z.bytes + s.len as usize + row_len(s) + 10,
            ..z
        },
        Kind::Delete | Kind::Rollback => z,
    }
}

// One line more.
fn count_line(z: Sizes, s: Slot, area: &[u8], table: u32) -> Sizes
    requires { CountAsks area.now z s }
    ensures { LineCounted area.now table z s result }
{
    if of_table(s, area, table) {
        with_row(with_line(z, s), s)
    } else {
        z
    }
}

// One walk over the lines.
pub fn sizes_of(slots: &[Slot], area: &[u8], table: u32) -> Sizes
    requires { Lined slots.now area.now }
    ensures { SizesAre slots.now area.now table result }
{
    let mut z = Sizes {
        defaults: 0,
        locks: 0,
        writes: 0,
        held: 0,
        bytes: 0,
    };
    for s in slots {
        z = count_line(z, *s, area, table);
    }
    z
}
