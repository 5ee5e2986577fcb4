// Whether an image has a fault: each entry by itself, and then its entries held against each other.
#![tactic(auto)]

pub mod judge;
pub mod locks;
