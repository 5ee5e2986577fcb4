// "A read's row is handed back as that stretch of the store's own bytes, not a copy": the part of the area that an answer shows. Both take
// any answer and any area; where nothing is shown, or what is shown does not lie in the area, the part is empty.
ghost use Rattle.std.specs.Prelude.{◌≡◌};
ghost use Rattle.reads.specs.Parts.{part_of, RowPart, PrimaryPart};

use crate::seen::{LockSeen, RowSeen};

// The `len` bytes from `at` on; the empty part where they do not lie in the area.
fn part(area: &[u8], at: usize, len: usize) -> &[u8]
    ensures { result.now ≡ part_of area.now at len }
{
    if area.len() < at || area.len() - at < len {
        return &area[..0];
    }
    &area[at..at + len]
}

// The row that a read showed.
pub fn row_of(area: &[u8], seen: RowSeen) -> &[u8]
    ensures { RowPart area.now seen result.now }
{
    match seen {
        Ok(Some(row)) => part(area, row.at, row.len),
        Ok(None) => &area[..0],
        Err(_) => part(area, 0, 0),
    }
}

// The primary of the lock that an intent at a point showed.
pub fn primary_of(area: &[u8], pointed: LockSeen) -> &[u8]
    ensures { PrimaryPart area.now pointed result.now }
{
    match pointed {
        Ok(Some(lock)) => part(area, lock.primary.at, lock.primary.len),
        Ok(None) | Err(_) => &area[..0],
    }
}
