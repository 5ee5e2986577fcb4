// "Restore (replaces the whole store)": the image is judged whole, and then the table is filled with its lines in order.
#![tactic(auto)]

pub mod fill;
pub mod replace;
pub mod rows;

pub use replace::restore;
