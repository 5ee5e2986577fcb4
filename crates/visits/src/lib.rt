// What a visitor or the support desk asks of the box, and the words for what was answered. The program `session` stands on this crate; the two are
// apart for the check's time.
#![tactic(auto)]

pub mod hall;
pub mod telling;
pub mod visitors;

pub use hall::{Hall, new_hall};
pub use telling::{say_answer, say_refusal};
pub use visitors::{asks_bones, asks_figures, asks_key, asks_page, say_effort};
