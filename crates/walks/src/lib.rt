// The judging walk of pages: which keys are asked for, and the lines that the page is to hold; `turns` says what each line does to it. Nothing here
// writes bytes or changes the store.
#![tactic(auto)]

pub mod judge;
pub mod walk;
pub mod walked;

pub use judge::judge_page;
pub use walked::Walked;
