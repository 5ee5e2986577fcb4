// "One-step batch": `commit_batch`. A checking pass looks each key up once, in the store before the call, and gathers what their checks find
// there; then the room that the whole call would leave, and an applying pass, after a repack where the area wants one.
#![tactic(auto)]

pub mod batch;
pub mod checks;
pub mod passes;

pub use batch::commit_batch;
