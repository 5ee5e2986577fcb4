// A hall's box: a store, and the area that goes with it.
ghost use Rattle.store.specs.Made.{Made, FreshStore};
ghost use Rattle.visits.specs.Halls.{once};

use mvcc::{AREA, Store};

// The store is made with its area, whatever the calls answered: so no caller has anything to show.
#[derive(Drop)]
pub struct Hall {
    pub store: Store,
    pub area: [u8; AREA],
    ghost made: { Made store area } by { Prim.hlevel once },
}

// A hall with nothing in its box.
pub fn new_hall() -> Hall
    ensures { FreshStore result.store result.area }
{
    let area = [0u8; AREA];
    let store = mvcc::open(&area);
    Hall { store, area }
}
