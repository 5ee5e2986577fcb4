// "We also want to ask whether bone n is shown, and how many bones are shown" (document 02, CR 4): two questions about any row, which need no store.
#![tactic(auto)]

pub mod shown;

pub use shown::{bone_shown, bones_shown};
