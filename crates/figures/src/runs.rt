// What the walk over lines keeps.
use forms::Part;
use rules::Figures;

// The length of the run of one key, and the figures of the runs that have ended.
#[derive(Clone, Copy)]
pub struct Run {
    pub long: usize,
    pub closed: Figures,
}

// What a line adds to the run of its key: to that of rows, and to that of records.
#[derive(Clone, Copy)]
pub struct Added {
    pub rows: usize,
    pub records: usize,
}

// The key before, if there is one, and the runs of rows and of records.
#[derive(Clone, Copy)]
pub struct Runs {
    pub key: Option<Part>,
    pub rows: Run,
    pub records: Run,
}
