// "Rollback": a checking pass over the store before the call, the room that the whole call would leave, and an applying pass,
// after a repack where the area wants one. The single form is a batch of one.
#![tactic(auto)]

pub mod batch;
pub mod checks;
pub mod passes;
pub mod single;

pub use batch::rollback_intents_batch;
pub use single::rollback_intent;
