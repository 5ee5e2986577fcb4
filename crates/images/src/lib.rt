// The entries of an image, at their places in its bytes: `entries` reads one, `checks` judges one by itself, `sections` walks over all and lists
// their places. Every function takes any bytes and any place, and says what the definition says of them.
#![tactic(auto)]

pub mod checks;
pub mod entries;
pub mod sections;

pub use checks::Form;
pub use entries::{ImageEntry, Section, entry_at, stood_at};
