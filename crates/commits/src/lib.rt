// "Commit": a checking pass over the store before the call, and an applying pass, after a repack where the area wants one. There is no 11: a record
// takes the lock's place, and live bytes fall by the primary, so a commit never needs room (`commits-room` of laws' CommitLaws). The single
// form is a batch of one.
#![tactic(auto)]

pub mod batch;
pub mod checks;
pub mod passes;
pub mod single;

pub use batch::commit_intents_batch;
pub use single::commit_intent;
