// Driving the store from outside, one call of docs/TRACE.md at a time: a call's bytes are run on a store, and its answer is written into a
// lent buffer. `changing` runs the calls that change the store, `asks` those that need none, `run` chooses among these and the calls of `showing`;
// the program that reads traces and writes answers is thin above this.
#![tactic(auto)]

pub mod asks;
pub mod changing;
pub mod run;

pub use run::run_call;
