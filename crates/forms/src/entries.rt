// The entries of a batch that was decoded.
ghost use Rattle.std.specs.Prelude.{◌≤◌};

use crate::batch::Entry;

// "count 0 to 32": the entries stand first in the list, which lies in the value itself. From the count on it says nothing. An array and its count, since an
// `ArrayVec` is not Copy.
#[derive(Clone, Copy)]
pub struct Entries {
    list: [Entry; 32],
    count: usize,
    ghost fits: { count ≤ 32 },
}

impl Entries {
    ghost use Rattle.std.specs.Prelude.{◌≡◌, ◌<◌, [], ◌∷◌, ◌++◌, length};
    ghost use Rattle.forms.specs.Places.{counting};

    pub(crate) fn new() -> Self
        ensures { counting result ≡ [] }
    {
        Entries {
            list: [Entry::default(); 32],
            count: 0,
        }
    }

    // One entry more, behind the others.
    pub(crate) fn push(&mut self, entry: Entry)
        requires { length (counting self.old) < 32 }
        ensures { counting self.new ≡ counting self.old ++ (entry ∷ []) }
    {
        self.list[self.count] = entry;
        self.count += 1;
    }

    // The entries that count.
    pub fn as_slice(&self) -> &[Entry]
        ensures { result.now ≡ counting self.now }
    {
        &self.list[..self.count]
    }
}
