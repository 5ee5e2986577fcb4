// "a length byte and its bytes": the piece that keys, rows, texts and primaries all stand in.
ghost use Rattle.std.specs.Prelude.{◌≡◌, ◌+◌, ◌≤◌, ◌<◌, ◌^◌, length};
ghost use Rattle.forms.specs.Places.{part_of, PartAt};

// Where a piece's bytes lie.
#[derive(Clone, Copy, Default)]
pub struct Part {
    pub at: usize,
    pub len: usize,
}

impl Part {
    // Where what follows it begins.
    pub fn end(self) -> usize
        requires { self.at + self.len < 2 ^ 64 }
        ensures { result ≡ self.at + self.len }
    {
        self.at + self.len
    }

    // Its bytes.
    pub fn of<'a>(self, s: &'a [u8]) -> &'a [u8]
        requires { self.at + self.len ≤ length s.now }
        ensures { result.now ≡ part_of s.now self }
    {
        &s[self.at..self.at + self.len]
    }
}

// The piece at a place; none where the bytes end before it does.
#[tactic(auto, using(crate::proofs::ReaderLaws::part_none, crate::proofs::ReaderLaws::part_short, crate::proofs::ReaderLaws::part_good))]
pub fn part_at(s: &[u8], at: usize) -> Option<Part>
    ensures { PartAt s.now at result }
{
    let len = usize::from(*s.get(at)?);
    if s.len() - at - 1 < len {
        return None;
    }
    Some(Part { at: at + 1, len })
}
