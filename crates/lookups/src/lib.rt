// What stands at a key: one lookup for all that any call asks of it. Every function assumes a store that is built (`store/specs/Made`). A crate
// apart from `store` for the check's time alone.
#![tactic(auto)]

pub mod lookup;

pub use lookup::{History, KeyState, look_up};
