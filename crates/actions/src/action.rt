// What a changing call does with each entry of its batch, in numbers. A prewrite's primary is beside them.
ghost use Rattle.std.specs.Prelude.{◌≡◌};
ghost use Rattle.actions.specs.Actions.{point_of, most_of};

use rules::CommitTerms;

#[derive(Clone, Copy)]
pub enum Action {
    Prewrite { txn: u64, start: u64, ttl: u64 },
    Commit(CommitTerms),
    Rollback { txn: u64, start: u64 },
    Step(CommitTerms),
}

// The start and the stamp that a key is looked up with.
#[derive(Clone, Copy)]
pub struct Point {
    pub start: u64,
    pub stamp: u64,
}

pub fn point_of(action: Action) -> Point
    ensures { result ≡ point_of action }
{
    match action {
        Action::Prewrite { start, .. } => Point { start, stamp: 0 },
        Action::Commit(terms) | Action::Step(terms) => Point {
            start: terms.start,
            stamp: terms.commit,
        },
        Action::Rollback { start, .. } => Point {
            start,
            stamp: start,
        },
    }
}

// How many bytes of the area an entry takes at most: a prewrite's lock has two keys of 48, a row of 255 and three numbers, a record one
// key, a row and two numbers, a Rollback no row; and one byte more, since a stretch begins at a pair of bytes.
pub fn most_of(action: Action) -> usize
    ensures { result ≡ most_of action }
{
    match action {
        Action::Prewrite { .. } => 376,
        Action::Commit(_) | Action::Step(_) => 320,
        Action::Rollback { .. } => 65,
    }
}
