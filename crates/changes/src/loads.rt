// What a line adds to the four tallies, with a Put's row, and what goes with a lock.
ghost use Rattle.std.specs.Prelude.{◌≡◌, ◌+◌, ◌≤◌};
ghost use Rattle.laws.specs.Adds.{plus, minus};
ghost use Rattle.changes.specs.Loads.{row_size, lock_size, record_size, freed_by, FreedAsks, Small, Within, LoadAsks, load_after};

use rules::{Kind, Load};
use store::LockView;

// "for a default, key plus row"
fn row_load(kind: Kind, key: usize, row: usize) -> Load
    requires { key + row ≤ 1000000 }
    ensures { result ≡ row_size kind key row }
{
    match kind {
        Kind::Put => Load {
            defaults: 1,
            bytes: key + row,
            ..Load::NONE
        },
        Kind::Delete | Kind::Rollback => Load::NONE,
    }
}

// "a lock, key plus primary"
pub fn lock_load(kind: Kind, key: usize, primary: usize, row: usize) -> Load
    requires { key + primary + (key + row) ≤ 1000000 }
    ensures { result ≡ lock_size kind key primary row }
{
    let r = row_load(kind, key, row);
    Load {
        lines: 1,
        locks: 1,
        defaults: r.defaults,
        bytes: key + primary + r.bytes,
    }
}

// "a record, key"
pub fn record_load(kind: Kind, key: usize, row: usize) -> Load
    requires { key + (key + row) ≤ 1000000 }
    ensures { result ≡ record_size kind key row }
{
    let r = row_load(kind, key, row);
    Load {
        lines: 1,
        locks: 0,
        defaults: r.defaults,
        bytes: key + r.bytes,
    }
}

// "Room that was freed counts as free at once": a lock that goes, with its row.
pub fn freed_by(lock: Option<LockView>, key: usize) -> Load
    requires { FreedAsks lock key }
    ensures { result ≡ freed_by lock key }
{
    match lock {
        None => Load::NONE,
        Some(l) => lock_load(l.kind, key, l.len, l.rowlen),
    }
}

pub fn more(a: Load, b: Load) -> Load
    requires { (Small a) × (Small b) }
    ensures { result ≡ plus a b }
{
    Load {
        lines: a.lines + b.lines,
        locks: a.locks + b.locks,
        defaults: a.defaults + b.defaults,
        bytes: a.bytes + b.bytes,
    }
}

pub fn less(a: Load, b: Load) -> Load
    requires { Within b a }
    ensures { result ≡ minus a b }
{
    Load {
        lines: a.lines - b.lines,
        locks: a.locks - b.locks,
        defaults: a.defaults - b.defaults,
        bytes: a.bytes - b.bytes,
    }
}

// A record comes, and its key's lock goes, if it has one.
pub fn load_after(old: Load, lock: Option<LockView>, key: usize, kind: Kind, row: usize) -> Load
    requires { LoadAsks old lock key row }
    ensures { result ≡ load_after old lock key kind row }
{
    let rest = less(old, freed_by(lock, key));
    more(rest, record_load(kind, key, row))
}
