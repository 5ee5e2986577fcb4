// The store: one table of small slots by value. A line is one stretch of bytes in an area that the caller lends: its key, its numbers, its
// row. specs/View.antt says which box a store shows; the defaults of that box are the rows that its Put lines carry. `table` has what is kept,
// `views` reads a line, `holders` tells whose a lock is and makes answer 7, `intents` writes a lock. The lookup is a crate of its own
// (`lookups`), so that a wrong program of either costs only its own check.
#![tactic(auto)]

pub mod holders;
pub mod intents;
pub mod table;
pub mod views;

pub use holders::{held_by, owns};
pub use intents::put_intent;
pub use table::{AREA, Line, LockSlot, RecordSlot, Slot, Store, fresh, open, pairs_in, place_of};
pub use views::{LineView, LockView, RecordView, past_key, slot_order, view_of};
