// What the judging walk leaves of a page that it does not refuse: the lines that the page is to hold. specs/Walked.antt gives the page that they
// show.
ghost use Rattle.std.specs.Prelude.{◌≡◌, ◌≤◌, take};
ghost use Rattle.rules.specs.Answers.{Accepted};
ghost use Rattle.walks.specs.Walked.{lines_in, empty_of};

use store::Slot;

// "At most 1,024 lines": so many has a page at most. A record stands for its key and row, an intent for its key and lock. Slots from the count
// on say nothing. `size` is how many bytes the page has. The array stands beside its count and is no `ArrayVec`: that one would have to be filled
// with a default slot too, and whoever reads the lines gets a slice anyway (`listed`).
#[derive(Clone, Copy)]
pub struct Walked {
    pub more: bool,
    pub count: usize,
    pub size: usize,
    pub slots: [Slot; 1024],
}

impl Walked {
    // The lines that the page is to hold.
    pub fn listed(&self) -> &[Slot]
        requires { self.now.count ≤ 1024 }
        ensures { result.now ≡ take self.now.count self.now.slots }
    {
        &self.slots[..self.count]
    }
}

// The empty page without more: its count and its last byte.
pub(crate) fn empty() -> Walked
    ensures { lines_in result ≡ empty_of Accepted }
{
    Walked {
        more: false,
        count: 0,
        size: 3,
        slots: [store::table::no_slot(); 1024],
    }
}
