// Reading one key: the row that it shows at a moment, and the lock that stands in the way of such a read. Nothing here changes the store.
// What is shown is handed back as a stretch of the store's own bytes.
#![tactic(auto)]

pub mod locks;
pub mod parts;
pub mod rows;
pub mod seen;

pub use locks::intent_for_read;
pub use parts::{primary_of, row_of};
pub use rows::{lock_lets, read};
pub use seen::{LockSeen, Reading, RowSeen, ShownLock};
