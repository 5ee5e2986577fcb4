// "Collect up to a floor F: for each key, of records stamped at or below F keep the newest that is not a Rollback, if it is a Put, and drop the
// rest with their rows." `passing` judges one line, `collecting` has the call.
#![tactic(auto)]

pub mod collecting;
pub mod passing;

pub use collecting::collect;
