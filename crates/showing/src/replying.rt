// What a read and one intent at a point show, put into a lent buffer: "the byte 0 where nothing is shown", or 1 and the row or the lock; "On a
// refusal of either, the single byte 0."; and the payloads of statistics and of the marks.
ghost use Rattle.std.specs.Prelude.{◌≤◌, length};
ghost use Rattle.rules.specs.Answers.{Accepted};
ghost use Rattle.rules.specs.Read.{examine};
ghost use Rattle.rules.specs.Intent.{intent_at};
ghost use Rattle.rules.specs.Figures.{stats, marks};
ghost use Rattle.store.specs.View.{box_of};
ghost use Rattle.store.specs.Made.{Made};
ghost use Rattle.traces.specs.Payloads.{read_payload, intent_payload, stats_payload, marks_payload};
ghost use Rattle.showing.specs.Told.{Writes};
ghost use Rattle.showing.specs.Replying.{seen_payload, pointed_payload};
ghost use Rattle.showing.specs.Shows.{ShownAs, ShownReply};

use crate::shown::Shown;
use reads::{LockSeen, RowSeen};
use store::{AREA, Store};

// "or 1 and the row"
fn put_seen(out: &mut [u8], seen: RowSeen, row: &[u8]) -> usize
    ensures { Writes (seen_payload seen row.now) out.old result out.new }
{
    match seen {
        Ok(Some(_)) => traces::put_row(out, row),
        Ok(None) | Err(_) => traces::put_nothing(out),
    }
}

// The count is "the number of write records it examined". A row has at most 255 bytes.
pub fn show_read<'a>(
    store: &Store,
    area: &[u8; AREA],
    key: &[u8],
    moment: u64,
    out: &'a mut [u8],
) -> Shown<'a>
    requires { (Made store.now area.now) × (256 ≤ length out.old) }
    ensures { ShownReply read_payload (examine store.now.floor key.now moment (box_of store.now area.now)).count (examine store.now.floor key.now moment (box_of store.now area.now)).reply result }
{
    let reading = reads::read(store, area, key, moment);
    let row = reads::row_of(area, reading.seen);
    let len = put_seen(out, reading.seen, row);
    Shown::of(reading.seen, reading.count, &out[..len])
}

// "or 1 and the lock in the image's form"
fn put_pointed(out: &mut [u8], pointed: LockSeen, primary: &[u8]) -> usize
    requires { length primary.now ≤ 255 }
    ensures { Writes (pointed_payload pointed primary.now) out.old result out.new }
{
    match pointed {
        Ok(Some(l)) => traces::put_lock(out, l.txn, primary, l.start, l.ttl, l.kind),
        Ok(None) | Err(_) => traces::put_nothing(out),
    }
}

// A lock has at most 74 bytes: 26, and a primary of at most 48.
pub fn show_lock<'a>(
    store: &Store,
    area: &[u8; AREA],
    key: &[u8],
    moment: u64,
    out: &'a mut [u8],
) -> Shown<'a>
    requires { (Made store.now area.now) × (256 ≤ length out.old) }
    ensures { ShownReply intent_payload 0 (intent_at key.now moment (box_of store.now area.now)) result }
{
    let pointed = reads::intent_for_read(store, area, key, moment);
    let primary = reads::primary_of(area, pointed);
    let len = put_pointed(out, pointed, primary);
    Shown::of(pointed, 0, &out[..len])
}

// "Payload of statistics"
pub fn show_stats<'a>(store: &Store, area: &[u8; AREA], out: &'a mut [u8]) -> Shown<'a>
    requires { (Made store.now area.now) × (256 ≤ length out.old) }
    ensures { ShownAs Accepted 0 (stats_payload (stats (box_of store.now area.now))) result }
{
    let counted = figures::stats(store, area);
    let len = traces::put_stats(out, counted);
    Shown::of(Ok(()), 0, &out[..len])
}

// "Of the marks: two numbers."
pub fn show_marks<'a>(store: &Store, area: &[u8; AREA], out: &'a mut [u8]) -> Shown<'a>
    requires { (Made store.now area.now) × (256 ≤ length out.old) }
    ensures { ShownAs Accepted 0 (marks_payload (marks (box_of store.now area.now))) result }
{
    let highest = figures::allocator_high_water_marks(store, area);
    let len = traces::put_marks(out, highest);
    Shown::of(Ok(()), 0, &out[..len])
}
