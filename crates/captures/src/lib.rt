// "Write the image": a table's image, written into a buffer that the caller lends. One walk over the lines adds up its length, so that a short
// buffer stays as it was. One writes the defaults; one writes locks and writes, each into its section, in the part of the buffer that remains.
#![tactic(auto)]

pub mod calls;
pub mod entries;
pub mod sections;

pub use calls::capture_snapshot_table;
