// The forms on bytes of document 01, "Key, row, batch, image": what every call is told and what the store keeps.
// Every reader here takes any bytes and any place, and says what the definition in specs/ says of them.
#![tactic(auto)]

pub mod batch;
pub mod entries;
pub mod key;
pub mod number;
pub mod ones;
pub mod part;
pub mod row;
pub mod writers;

pub use batch::{Entry, keys_of, mutations_of};
pub use entries::Entries;
pub use key::{below, compare, key_in_form, same};
pub use number::{Width, bytes_in, number_at};
pub use ones::{one_key, one_mutation};
pub use part::{Part, part_at};
pub use row::{Mask, bones_in, old_row_in_form, row_in_form};
pub use writers::{put_byte, put_bytes, put_digits, put_own, put_piece};
