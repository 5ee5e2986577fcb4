// "From a store and a table number, write that table's image .. Refusals: a zero table number 3, then a short buffer 12." 02, CR 7: the floor
// "stands in the image, 8 bytes, after the table number".
ghost use Rattle.rules.specs.Outcomes.{wrote};
ghost use Rattle.store.specs.View.{box_of};
ghost use Rattle.store.specs.Made.{Made};
ghost use Rattle.captures.specs.Promise.{ImageWritten};

use crate::sections::put_image;
use picks::sizes_of;
use rules::Refusal;
use store::{AREA, Store};

pub fn capture_snapshot_table(
    store: &Store,
    area: &[u8; AREA],
    table: u32,
    out: &mut [u8],
) -> Result<usize, Refusal>
    requires { Made store.now area.now }
    ensures { ImageWritten store.now.floor table (box_of store.now area.now) out.old (wrote result) out.new }
{
    if table == 0 {
        return Err(Refusal::Argument);
    }
    let floor = store.floor;
    let slots = &store.lines[..store.load.lines];
    let z = sizes_of(slots, area, table);
    if out.len() < z.bytes + 18 {
        return Err(Refusal::ShortBuffer);
    }
    Ok(put_image(out, slots, area, table, floor, z))
}
