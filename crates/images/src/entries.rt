// An entry of an image at a place, in any of the three sections: where its key and its piece lie, its numbers as they stand, and its kind. A
// number that is no kind's stands in its place: whether an entry may have one is for the one who judges.
ghost use Rattle.std.specs.Prelude.{◌≡◌, true, ◌≤◌, length};
ghost use Rattle.images.specs.Entries.{kind_from, is_put, PieceAt, TailAt, EntryAt, Stood, has_tail};

use forms::{Part, Width, number_at, part_at};
use rules::records::Kind;

// The sections of an image, in its order.
#[derive(Clone, Copy)]
pub enum Section {
    Default,
    Lock,
    Write,
}

// "Kinds: 1 Put, 2 Delete, 3 Rollback", and else the number itself
fn kind_from(n: u8) -> Result<Kind, u8>
    ensures { result ≡ kind_from n }
{
    match n {
        1 => Ok(Kind::Put),
        2 => Ok(Kind::Delete),
        3 => Ok(Kind::Rollback),
        _ => Err(n),
    }
}

// A default's row or a lock's primary; a write has no piece, and the empty one stands for it.
fn piece_at(s: &[u8], at: usize, section: Section) -> Option<Part>
    requires { at ≤ length s.now }
    ensures { PieceAt section s.now at result }
{
    match section {
        Section::Default | Section::Lock => part_at(s, at),
        Section::Write => Some(Part { at, len: 0 }),
    }
}

// The end of a lock or a write: two numbers, a kind, and where the next entry begins.
#[derive(Clone, Copy)]
pub struct Tail {
    pub second: u64,
    pub third: u64,
    pub kind: Result<Kind, u8>,
    pub next: usize,
}

fn numbers_at(s: &[u8], at: usize) -> Option<Tail>
    ensures { TailAt true s.now at result }
{
    let second = number_at(s, at, Width::Eight)?;
    let third = number_at(s, at + 8, Width::Eight)?;
    let b = at + 16;
    if s.len() <= b {
        return None;
    }
    let kind = kind_from(s[b]);
    Some(Tail {
        second,
        third,
        kind,
        next: b + 1,
    })
}

// A default ends with its row.
fn tail_at(s: &[u8], at: usize, section: Section) -> Option<Tail>
    requires { at ≤ length s.now }
    ensures { TailAt (has_tail section) s.now at result }
{
    match section {
        Section::Default => Some(Tail {
            second: 0,
            third: 0,
            kind: Err(0),
            next: at,
        }),
        Section::Lock | Section::Write => numbers_at(s, at),
    }
}

// An entry: where its key and its piece lie, the number after its key, the two after its piece, its kind, and where the next entry begins.
#[derive(Clone, Copy)]
pub struct ImageEntry {
    pub key: Part,
    pub first: u64,
    pub piece: Part,
    pub second: u64,
    pub third: u64,
    pub kind: Result<Kind, u8>,
    pub next: usize,
}

impl ImageEntry {
    pub fn is_put(&self) -> bool
        ensures { result ≡ is_put self.now.kind }
    {
        matches!(self.kind, Ok(Kind::Put))
    }
}

pub fn entry_at(s: &[u8], at: usize, section: Section) -> Option<ImageEntry>
    ensures { EntryAt section s.now at result }
{
    let key = part_at(s, at)?;
    let a = key.at + key.len;
    let first = number_at(s, a, Width::Eight)?;
    let piece = piece_at(s, a + 8, section)?;
    let tail = tail_at(s, piece.at + piece.len, section)?;
    Some(ImageEntry {
        key,
        first,
        piece,
        second: tail.second,
        third: tail.third,
        kind: tail.kind,
        next: tail.next,
    })
}

const EMPTY: ImageEntry = ImageEntry {
    key: Part { at: 0, len: 0 },
    first: 0,
    piece: Part { at: 0, len: 0 },
    second: 0,
    third: 0,
    kind: Err(0),
    next: 0,
};

// The entry at a place of an image that was judged: any place has one, and where none stands it is empty.
pub fn stood_at(s: &[u8], at: u32, section: Section) -> ImageEntry
    ensures { Stood section s.now at result }
{
    entry_at(s, at as usize, section).unwrap_or(EMPTY)
}
