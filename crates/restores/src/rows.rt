// The row of a line: that of the default of its key and start, found among the image's defaults, which stand in order.
ghost use Rattle.restores.specs.Rows.{RowAsks, RowFound};

use forms::Part;
use images::{ImageEntry, Section, stood_at};
use orders::row_place;

// Where a row lies in the image, and the place of its default in the list.
#[derive(Clone, Copy)]
pub struct RowPlace {
    pub row: Part,
    pub last: usize,
}

// A Put's row, and no bytes for another kind.
pub fn find_row(s: &[u8], rows: &[u32], e: ImageEntry, last: usize) -> RowPlace
    requires { RowAsks s.now rows.now e }
    ensures { RowFound s.now rows.now e result }
{
    if !e.is_put() {
        return RowPlace {
            row: Part { at: 0, len: 0 },
            last,
        };
    }
    let at = row_place(s, rows, e, last);
    let found = stood_at(s, rows[at], Section::Default);
    RowPlace {
        row: found.piece,
        last: at,
    }
}
