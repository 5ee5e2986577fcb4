// The three calls: what the walk judged, "Last, 12", and then the writing. "A refusal changes nothing in store or buffers."
ghost use Rattle.rules.specs.Written.{written, scan_page, scan_intent_page, scan_conflicting_intents, WroteAs};
ghost use Rattle.rules.specs.Outcomes.{wrote};
ghost use Rattle.store.specs.View.{box_of};
ghost use Rattle.store.specs.Made.{Made};
ghost use Rattle.bounds.specs.Bounds.{bounds_of};
ghost use Rattle.walks.specs.Walked.{same, page_asked, WalkAsks};

use crate::sections::put_page;
use bounds::Bounds;
use rules::Refusal;
use store::{AREA, Store};
use turns::{PageQuery, Scan};
use walks::judge_page;

// Any of the three.
fn scan(
    store: &Store,
    area: &[u8],
    asked: &PageQuery,
    bounds: &Bounds,
    out: &mut [u8],
) -> Result<usize, Refusal>
    requires { WalkAsks store.now area.now asked.now }
    ensures { WroteAs (written same (page_asked store.now.floor asked.now (bounds_of bounds.now) (box_of store.now area.now)) out.old) (wrote result) out.new }
{
    let w = judge_page(store, area, asked, bounds)?;
    if out.len() < w.size {
        return Err(Refusal::ShortBuffer);
    }
    Ok(put_page(out, area, &w))
}

// "Page": the rows shown at a moment, up to a limit of rows and one of bytes.
pub fn scan_page(
    store: &Store,
    area: &[u8; AREA],
    moment: u64,
    rows: u64,
    bytes: u64,
    bounds: Bounds,
    out: &mut [u8],
) -> Result<usize, Refusal>
    requires { Made store.now area.now }
    ensures { WroteAs (scan_page store.now.floor (bounds_of bounds.entry) moment (record { rows = rows; bytes = bytes }) (box_of store.now area.now) out.old) (wrote result) out.new }
{
    let asked = PageQuery {
        scan: Scan::Rows,
        moment,
        limit: rows,
        bytes,
    };
    scan(store, area, &asked, &bounds, out)
}

// "Intent page": the locks, up to a limit.
pub fn scan_intent_page(
    store: &Store,
    area: &[u8; AREA],
    limit: u64,
    bounds: Bounds,
    out: &mut [u8],
) -> Result<usize, Refusal>
    requires { Made store.now area.now }
    ensures { WroteAs (scan_intent_page (bounds_of bounds.entry) limit (box_of store.now area.now) out.old) (wrote result) out.new }
{
    let asked = PageQuery {
        scan: Scan::Intents,
        moment: 0,
        limit,
        bytes: 1048576,
    };
    scan(store, area, &asked, &bounds, out)
}

// "Conflicting intents": the locks that stand in the way of a read at a moment, up to a limit of locks and one of bytes.
pub fn scan_conflicting_intents(
    store: &Store,
    area: &[u8; AREA],
    moment: u64,
    locks: u64,
    bytes: u64,
    bounds: Bounds,
    out: &mut [u8],
) -> Result<usize, Refusal>
    requires { Made store.now area.now }
    ensures { WroteAs (scan_conflicting_intents (bounds_of bounds.entry) moment (record { rows = locks; bytes = bytes }) (box_of store.now area.now) out.old) (wrote result) out.new }
{
    let asked = PageQuery {
        scan: Scan::Conflicts,
        moment,
        limit: locks,
        bytes,
    };
    scan(store, area, &asked, &bounds, out)
}
