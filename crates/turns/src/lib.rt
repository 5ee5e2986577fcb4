// What each line of the table says to a page, and what the page does with it: the judging walk (`walks`) takes the lines in turn. The two were
// set apart for the check's time with the older kit (docs/ARCHITECTURE.md, 'The crates').
#![tactic(auto)]

pub mod asked;
pub mod dues;
pub mod turns;

pub use asked::{PageQuery, Scan};
pub use dues::{Due, no_due};
pub use turns::{Turn, turn_of};
