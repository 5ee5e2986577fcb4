// The bounds of a page: what is asked of them, and which keys lie within them. `bounds`, `walks` and `pages` are one layer, set apart for the
// check's time with the older kit (docs/ARCHITECTURE.md, 'The crates').
#![tactic(auto)]

pub mod arguments;
pub mod asked;
pub mod within;

pub use asked::Bounds;
pub use within::slots_share;
