// Changes of a store: a line's bytes go past the top of the area, its slot to its place in the table. Every function assumes a store that is
// built. `changes`, `actions` and `calls` are one layer, set apart for the check's time with the older kit (docs/ARCHITECTURE.md, 'The crates').
#![tactic(auto)]

pub mod change;
pub mod entries;
pub mod loads;
pub mod packing;
pub mod writes;

pub use change::{Change, NewSlot, make_change};
pub use entries::{bytes_of, end_lock, kind_for, lock_slot, put_lock, put_record, record_slot};
pub use loads::{freed_by, less, lock_load, more, record_load};
pub use packing::repack;
pub use writes::{append_lock, append_record};
