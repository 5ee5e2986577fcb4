// "Statistics" and "High-water marks": the numbers that they give.

// Of defaults or of records: their keys, themselves, the chains of 1, of 2 to 4, of 5 to 16 and above 16, and the longest.
#[derive(Clone, Copy)]
pub struct Figures {
    pub keys: usize,
    pub all: usize,
    pub one: usize,
    pub four: usize,
    pub sixteen: usize,
    pub above: usize,
    pub longest: usize,
}

#[derive(Clone, Copy)]
pub struct Stats {
    pub defaults: Figures,
    pub locks: usize,
    pub records: Figures,
}

// "largest lock transaction, largest stamp or start of any kind, each 0 if none"
#[derive(Clone, Copy)]
pub struct Marks {
    pub txn: u64,
    pub stamp: u64,
}
