// What restore decides from the image's bytes alone: the answer, and the places of an accepted image in order.
#![tactic(auto)]

pub mod decide;
pub mod outcome;

pub use decide::verdict;
pub use outcome::ImageVerdict;
