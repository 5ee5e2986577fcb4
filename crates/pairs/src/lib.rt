// Lines and defaults of an image by key and start, as places in order: whether each Put has its default, and each default its Put. Its laws say what
// sorted places show of an image; restore's verdict and the converter's stand on them.
#![tactic(auto)]

pub mod puts;

pub use puts::{points_to, puts_match};
