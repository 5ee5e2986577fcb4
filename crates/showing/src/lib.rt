// What a call of docs/TRACE.md tells, and the calls that leave the store as it was, run on it: what is shown is written into a lent buffer as the
// call's answer. specs/Told.antt says what each call tells, specs/Ran.antt what running one leaves. `showing` and `driving` are one layer, kept
// apart since together their check takes more than a minute.
#![tactic(auto)]

pub mod capturing;
pub mod replying;
pub mod shown;
pub mod shows;

pub use capturing::run_capture;
pub use shown::{Shown, written};
pub use shows::run_shown;
