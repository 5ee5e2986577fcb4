// What an image asks of a slot: of which table its key is, in which section its line stands, and what a Put carries.
ghost use Rattle.std.specs.Prelude.{◌≡◌};
ghost use Rattle.forms.specs.Bytes.{Bytes};
ghost use Rattle.rules.specs.Box.{kind_in};
ghost use Rattle.rules.specs.Restore.{of_table};
ghost use Rattle.store.specs.View.{key_of, line_of, row_len};
ghost use Rattle.picks.specs.Lines.{SlotIn, belongs, is_put, put_start};

use forms::Width;
use rules::Kind;
use store::views::eight_at;
use store::{Line, Slot, place_of};

// The sections that take lines as they stand.
#[derive(Clone, Copy)]
pub enum Section {
    Locks,
    Writes,
}

// "key of this table"
pub(crate) fn of_table(s: Slot, area: &[u8], table: u32) -> bool
    requires { SlotIn area.now s }
    ensures { result ≡ of_table table (key_of area.now s) }
{
    forms::number_at(area, place_of(s), Width::Four) == Some(u64::from(table))
}

pub(crate) fn kind_of(s: Slot) -> Kind
    ensures { (area : Bytes) → result ≡ kind_in (line_of area s).line }
{
    match s.line {
        Line::Standing(l) => l.kind,
        Line::Finished(w) => w.kind,
    }
}

pub fn row_len(s: Slot) -> usize
    ensures { result ≡ row_len s.line }
{
    match s.line {
        Line::Standing(l) => l.rowlen as usize,
        Line::Finished(w) => w.rowlen as usize,
    }
}

// A line of the section and of the table.
pub fn belongs_to(s: Slot, area: &[u8], table: u32, what: Section) -> bool
    requires { SlotIn area.now s }
    ensures { result ≡ belongs what table (line_of area.now s) }
{
    match (s.line, what) {
        (Line::Standing(_), Section::Locks) => of_table(s, area, table),
        (Line::Finished(_), Section::Writes) => of_table(s, area, table),
        (Line::Standing(_), Section::Writes) | (Line::Finished(_), Section::Locks) => false,
    }
}

// A Put of the table: such a line carries a default.
pub(crate) fn is_put(s: Slot, area: &[u8], table: u32) -> bool
    requires { SlotIn area.now s }
    ensures { result ≡ is_put table (line_of area.now s) }
{
    matches!(kind_of(s), Kind::Put) && of_table(s, area, table)
}

// The start of a Put of the table, and of any other line 0.
pub fn put_start(s: Slot, area: &[u8], table: u32) -> u64
    requires { SlotIn area.now s }
    ensures { result ≡ put_start table (line_of area.now s) }
{
    if is_put(s, area, table) {
        let at = place_of(s) + s.len as usize;
        return eight_at(area, at + 8);
    }
    0
}
