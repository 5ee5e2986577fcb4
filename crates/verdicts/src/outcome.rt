// What restore decides.
use rules::Load;

// Of an accepted image: the load of the box that it would leave, its floor, and where its writes begin.
#[derive(Clone, Copy)]
pub struct ImageVerdict {
    pub load: Load,
    pub floor: u64,
    pub writesat: usize,
}
