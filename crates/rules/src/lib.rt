// What code and definitions both speak of document 01: answers, kinds and records, room, figures. The steps themselves are the
// definitions in specs/; here are the types, the paper's numbers of answers and kinds, the few tests that every call makes of a record
// and of the room, and the writers of an image's entries.
#![tactic(auto)]

pub mod answers;
pub mod figures;
pub mod records;
pub mod room;
pub mod terms;
pub mod writers;

pub use answers::{Holder, Refusal};
pub use figures::{Figures, Marks, Stats};
pub use records::{Kind, Record, record_sound};
pub use room::{Load, load_fits};
pub use terms::CommitTerms;
pub use writers::{put_default, put_lock, put_record};
