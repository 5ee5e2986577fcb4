// "Statistics" and "High-water marks": what a store holds, counted in one walk over its table.
#![tactic(auto)]

pub mod marks;
pub mod runs;
pub mod statistics;
pub mod walks;

pub use marks::allocator_high_water_marks;
pub use statistics::stats;
