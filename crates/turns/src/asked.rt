// What a page is asked for.
ghost use Rattle.std.specs.Prelude.{◌≡◌};
ghost use Rattle.turns.specs.Scans.{by_key, floor_of, over_of};

// "Page", "Intent page", "Conflicting intents".
#[derive(Clone, Copy)]
pub enum Scan {
    Rows,
    Intents,
    Conflicts,
}

// The moment, the limit of rows or locks, and that of bytes. An intent page has no moment, and a byte limit that no page reaches.
#[derive(Clone, Copy)]
pub struct PageQuery {
    pub scan: Scan,
    pub moment: u64,
    pub limit: u64,
    pub bytes: u64,
}

impl Scan {
    // A page of rows judges a key at its last line, one of locks each line by itself.
    pub fn by_key(self) -> bool
        ensures { result ≡ by_key self }
    {
        matches!(self, Scan::Rows)
    }

    // The floor that a page asks for: one of locks asks for none.
    pub fn floor_of(self, floor: u64) -> u64
        ensures { result ≡ floor_of self floor }
    {
        if self.by_key() { floor } else { 0 }
    }

    // How many bytes besides its cost an entry has: the lengths of key and row; of the key, since a lock's 26 have the primary's.
    pub fn over(self) -> usize
        ensures { result ≡ over_of self }
    {
        if self.by_key() { 2 } else { 1 }
    }
}
