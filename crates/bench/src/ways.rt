// The kinds of call. All calls of an input are of one kind, a number in it.

// The calls that leave the area as it was: those that show something, and a collection.
#[derive(Clone, Copy)]
pub enum Show {
    Nothing,
    Read,
    Page,
    Statistics,
    Image,
    Collection,
}

// The calls that change it: each is made on a copy.
#[derive(Clone, Copy)]
pub enum Change {
    Nothing,
    Prewrite,
    Commit,
    PrewriteAndCommit,
    Rollback,
    OneStep,
    Restore,
}

#[derive(Clone, Copy)]
pub enum Way {
    Shows(Show),
    Changes(Change),
}

// 0 makes no call, and 4 only the copy: what such a turn takes is to be subtracted. A number of no kind makes no call either.
impl From<u8> for Way {
    fn from(number: u8) -> Self {
        match number {
            1 => Way::Shows(Show::Read),
            2 => Way::Shows(Show::Page),
            3 => Way::Shows(Show::Statistics),
            4 => Way::Changes(Change::Nothing),
            5 => Way::Changes(Change::Prewrite),
            6 => Way::Changes(Change::Commit),
            7 => Way::Changes(Change::PrewriteAndCommit),
            8 => Way::Changes(Change::Rollback),
            9 => Way::Changes(Change::OneStep),
            10 => Way::Changes(Change::Restore),
            11 => Way::Shows(Show::Image),
            12 => Way::Shows(Show::Collection),
            _ => Way::Shows(Show::Nothing),
        }
    }
}
