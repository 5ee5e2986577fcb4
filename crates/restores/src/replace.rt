// "Restore (replaces the whole store): .. Any fault 13, then 11."; "a restored store taking the image's" floor
ghost use Rattle.rules.specs.Outcomes.{outcome};
ghost use Rattle.rules.specs.Restore.{restore};
ghost use Rattle.store.specs.View.{state_shown};
ghost use Rattle.store.specs.Made.{Made};
ghost use Rattle.calls.specs.Settled.{Replaced};

use crate::fill::{place_at, put_line};
use rules::Refusal;
use store::{AREA, Store};
use verdicts::verdict;

// "form, table number not zero, then each entry ..": the whole image is judged before anything is written. Then the table is filled where it
// stands, a place at a time, up to the last place that was or is in use.
pub fn restore(store: &mut Store, area: &mut [u8; AREA], image: &[u8]) -> Result<(), Refusal>
    requires { Made store.old area.old }
    ensures { Replaced store.old area.old (restore image.now (state_shown store.old area.old)) (record { store = store.new; answer = outcome result }) area.new }
{
    let mut rows = [0u32; 1024];
    let mut places = [0u32; 1024];
    let accepted = verdict(image, &mut rows, &mut places)?;
    let load = accepted.load;
    let end = load.lines.max(store.load.lines);
    let mut top: usize = 0;
    let mut last: usize = 0;
    for k in 0..end {
        let place = place_at(&places, load.lines, k);
        let filled = put_line(
            area,
            top,
            image,
            accepted.writesat,
            &rows[..load.defaults],
            place,
            last,
        );
        store.lines[k] = filled.slot;
        top = filled.top;
        last = filled.last;
    }
    store.load = load;
    store.top = top;
    store.floor = accepted.floor;
    Ok(())
}
