// Entries of an image in order, as places in its bytes: a list of places, or two in one, is sorted and asked whether it ascends; a place is found
// by what stands there.
// `orders`, `pairs`, `faults`, `verdicts` and `restores` are one layer, set apart for the check's time with the older kit
// (docs/ARCHITECTURE.md, 'The crates').
#![tactic(auto)]

pub mod finds;
pub mod marks;
pub mod sorts;

pub use finds::row_place;
pub use marks::{By, Mark, line_at, mark_at};
pub use sorts::{order, order_both};
