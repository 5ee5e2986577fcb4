// Pages: rows, intents and conflicting intents, written into a buffer that the caller lends. The walk judges; here is the buffer's check
// and the writing, each section into the part of the buffer that remains after the section before.
#![tactic(auto)]

pub mod calls;
pub mod entries;
pub mod sections;

pub use calls::{scan_conflicting_intents, scan_intent_page, scan_page};
