// "Statistics: keys with a default, defaults, locks, keys with a record, records; for defaults and for records apart, chains of 1, 2 to 4,
// 5 to 16 and above 16, and the longest." A default is the row of a Put line, so both chains are counted over the lines.
ghost use Rattle.std.specs.Prelude.{◌≡◌, ◌≤◌};
ghost use Rattle.rules.specs.Figures.{stats};
ghost use Rattle.store.specs.View.{box_of};
ghost use Rattle.store.specs.Made.{Made};
ghost use Rattle.figures.specs.Walks.{if_row, added_by, NextLine, LineCounted};

use crate::runs::{Added, Runs};
use crate::walks::{close, next_run, no_run};
use forms::Part;
use rules::{Kind, Stats};
use store::{AREA, Line, Slot, Store, place_of};

// Only a Put has a row.
fn if_row(kind: Kind) -> usize
    ensures { (result ≡ if_row kind) × (result ≤ 1) }
{
    match kind {
        Kind::Put => 1,
        Kind::Delete | Kind::Rollback => 0,
    }
}

// What a line adds.
fn added_by(line: Line) -> Added
    ensures { (result ≡ added_by line) × ((result.rows ≤ 1) × (result.records ≤ 1)) }
{
    match line {
        Line::Standing(l) => Added {
            rows: if_row(l.kind),
            records: 0,
        },
        Line::Finished(w) => Added {
            rows: if_row(w.kind),
            records: 1,
        },
    }
}

// One line more.
fn one_line(seen: Runs, s: Slot, area: &[u8]) -> Runs
    requires { NextLine area.now seen s }
    ensures { LineCounted area.now seen s result }
{
    let key = Part {
        at: place_of(s),
        len: usize::from(s.len),
    };
    let same = seen
        .key
        .is_some_and(|k| forms::same(k.of(area), key.of(area)));
    let more = added_by(s.line);
    Runs {
        key: Some(key),
        rows: next_run(seen.rows, same, more.rows),
        records: next_run(seen.records, same, more.records),
    }
}

// The table is walked from the last line to the first: equal keys stand together there.
pub fn stats(store: &Store, area: &[u8; AREA]) -> Stats
    requires { Made store.now area.now }
    ensures { result ≡ stats (box_of store.now area.now) }
{
    let mut seen = Runs {
        key: None,
        rows: no_run(),
        records: no_run(),
    };
    for i in (0..store.load.lines).rev() {
        seen = one_line(seen, store.lines[i], area);
    }
    let of_rows = close(seen.rows.long, seen.rows.closed);
    let of_records = close(seen.records.long, seen.records.closed);
    Stats {
        defaults: of_rows,
        locks: store.load.locks,
        records: of_records,
    }
}
