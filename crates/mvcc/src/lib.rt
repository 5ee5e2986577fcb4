// The public face: document 01's calls under the Rust's names, as they stand in their crates, re-exported and not wrapped; and every type that a
// call takes or gives back, with the types of its fields, so that a caller names no other crate. `fresh` is the Rust's `new`, `open` the same
// over an area that is lent, `restore` its `restore_from_snapshot_entries`, `capture_snapshot_table` its `capture_snapshot_state` of one table. A
// store and its area of `AREA` bytes go together: between calls the area is the store's own, and nobody else writes to it. Every call's only
// premise is that our code made them (`Made`, crates/store/specs/Made.antt). Each call is tied to the demands in crates/demands/src/ties.rt, by
// its name here.
#![tactic(auto)]

// A store, fresh or from an image; the image of one of its tables; an old image as one of today.
pub use captures::capture_snapshot_table;
pub use converts::convert_image;
pub use restores::restore;
pub use store::{fresh, open};

// What a key shows at a moment, and the lock that stands in the way of a read.
pub use reads::{intent_for_read, primary_of, read, row_of};

// What a row shows of its bones.
pub use bones::{bone_shown, bones_shown};

// Pages of rows, of locks, and of the locks in the way of a read.
pub use pages::{scan_conflicting_intents, scan_intent_page, scan_page};

// Transactions: prewrite, then commit or rollback, of one key or of a batch; or all in one step.
pub use commits::{commit_intent, commit_intents_batch};
pub use onesteps::commit_batch;
pub use prewrites::{prewrite, prewrite_batch};
pub use rollbacks::{rollback_intent, rollback_intents_batch};

// Old editions removed, up to a floor.
pub use collects::collect;

// Figures of the whole store.
pub use figures::{allocator_high_water_marks, stats};

// The types that calls take and give back. Their methods are no calls on a store: each says itself what it asks.
pub use bounds::Bounds;
pub use forms::Part;
pub use reads::{LockSeen, Reading, RowSeen, ShownLock};
pub use rules::{Figures, Holder, Kind, Load, Marks, Refusal, Stats};
pub use store::{AREA, Line, LockSlot, RecordSlot, Slot, Store};
