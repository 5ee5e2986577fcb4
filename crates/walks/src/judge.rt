// "3; start 1; end 1; 4; resume 1; resume at or past end, empty page without more", then the walk: what a page call answers, up to the
// buffer. 02, CR 7: "14, below the floor, for a .. row page moment below F (.. in a page after the resume key's 1 ..)".
ghost use Rattle.store.specs.View.{box_of};
ghost use Rattle.bounds.specs.Bounds.{bounds_of};
ghost use Rattle.walks.specs.Walked.{page_asked, WalkAsks, WalkedAs, walked_in};

use crate::walk::walk_lines;
use crate::walked::{Walked, empty};
use bounds::Bounds;
use rules::Refusal;
use store::Store;
use turns::PageQuery;

pub fn judge_page(
    store: &Store,
    area: &[u8],
    asked: &PageQuery,
    bounds: &Bounds,
) -> Result<Walked, Refusal>
    requires { WalkAsks store.now area.now asked.now }
    ensures { WalkedAs area.now (page_asked store.now.floor asked.now (bounds_of bounds.now) (box_of store.now area.now)) (walked_in result) }
{
    bounds.page_arguments(asked.limit, asked.bytes)?;
    let floor = asked.scan.floor_of(store.floor);
    if asked.moment < floor {
        return Err(Refusal::BelowFloor);
    }
    if bounds.past_end() {
        return Ok(empty());
    }
    walk_lines(store, area, asked, bounds)
}
