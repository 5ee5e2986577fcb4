// What an image takes of the lines: which are of its table and of which section, how large it becomes, and which row of a key comes next.
// `picks` and `captures` are one layer, set apart for the check's time with the older kit (docs/ARCHITECTURE.md, 'The crates').
#![tactic(auto)]

pub mod chains;
pub mod sizes;
pub mod slots;

pub use chains::{Next, is_less, same_key};
pub use sizes::{Sizes, sizes_of};
pub use slots::{Section, belongs_to, put_start, row_len};
