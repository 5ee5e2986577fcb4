// What all changing calls share: the tests that several of them make of a lock and a row, the terms of a transaction, the weights of entries,
// what the checks of all of them come to, and the applying pass. specs/Settled.antt has the promises of the changing calls, specs/Passes.antt
// what a call over a batch does.
#![tactic(auto)]

pub mod applying;
pub mod checking;
pub mod judged;
pub mod parts;
pub mod steps;
pub mod terms;
pub mod weights;

pub use applying::{apply_all, settle};
pub use checking::check_each;
pub use judged::judge;
pub use parts::row_of;
pub use steps::{
    argument_step, batch_step, decoded_step, floor_step, own_step, row_stands, zero_step,
};
pub use terms::commit_terms_step;
pub use weights::{Weight, left_load, plus_weight};
