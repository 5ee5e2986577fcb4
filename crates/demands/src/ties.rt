// Each public call, made by its public name with nothing before it and nothing after it. What it gave back is `Kept` (specs/Calls.antt), and
// all that shows it is the call's own `ensures`: a call whose promise grows weaker has no proof here. The only premise is `Made`, as in the
// calls. `.ci/ties` holds this file to the public face: a call that has no function here fails the gate.
ghost use Rattle.std.specs.Prelude.{◌≡◌, false, length};
ghost use Rattle.forms.specs.Bytes.{Bytes};
ghost use Rattle.forms.specs.Ones.{one_mutation, one_key};
ghost use Rattle.rules.specs.Outcomes.{outcome, value_or, wrote};
ghost use Rattle.rules.specs.Bones.{told};
ghost use Rattle.rules.specs.Call.{Changing, Call};
ghost use Rattle.bounds.specs.Bounds.{bounds_of};
ghost use Rattle.forms.specs.Readers.{when};
ghost use Rattle.store.specs.declared.table.Store.{Store};
ghost use Rattle.store.specs.Made.{Made};
ghost use Rattle.demands.specs.Calls.{Lent, Kept, KeptOn};
ghost use Rattle.demands.specs.Calls.{starting, calling, handing_row, handing_primary};
ghost use Rattle.demands.specs.Calls.{started, seen, pointed, handed, paged, changed, stepped, counted, marked, boned, summed};

use mvcc::{AREA, Bounds, LockSeen, Marks, Reading, Refusal, RowSeen, Stats, Store};

pub fn fresh() -> Store
    ensures { (w : Lent) → length w.area ≡ 131072 → Kept w starting (started result) }
{
    mvcc::fresh()
}

// The area is lent: it takes no store before it, and any may stand for one.
pub fn open(area: &[u8; AREA]) -> Store
    ensures { (store : Store) → KeptOn store area.now starting (started result) }
{
    mvcc::open(area)
}

// With whatever part `row_of` hands back of the answer.
pub fn read(store: &Store, area: &[u8; AREA], key: &[u8], moment: u64) -> Reading
    requires { Made store.now area.now }
    ensures { (buffer part : Bytes) → Kept (record { store = store.now; area = area.now; buffer = buffer }) (handing_row result.seen) (handed part) → Kept (record { store = store.now; area = area.now; buffer = buffer }) (calling (Call.Read key.now moment)) (seen result part) }
{
    mvcc::read(store, area, key, moment)
}

// With whatever part `primary_of` hands back of the answer.
pub fn intent_for_read(store: &Store, area: &[u8; AREA], key: &[u8], moment: u64) -> LockSeen
    requires { Made store.now area.now }
    ensures { (buffer part : Bytes) → Kept (record { store = store.now; area = area.now; buffer = buffer }) (handing_primary result) (handed part) → Kept (record { store = store.now; area = area.now; buffer = buffer }) (calling (Call.OneIntent key.now moment)) (pointed result part) }
{
    mvcc::intent_for_read(store, area, key, moment)
}

// It takes no store: any may stand for it.
pub fn row_of(area: &[u8], answer: RowSeen) -> &[u8]
    ensures { (store : Store) → KeptOn store area.now (handing_row answer) (handed result.now) }
{
    mvcc::row_of(area, answer)
}

pub fn primary_of(area: &[u8], answer: LockSeen) -> &[u8]
    ensures { (store : Store) → KeptOn store area.now (handing_primary answer) (handed result.now) }
{
    mvcc::primary_of(area, answer)
}

pub fn scan_page(
    store: &Store,
    area: &[u8; AREA],
    moment: u64,
    rows: u64,
    bytes: u64,
    bounds: Bounds,
    out: &mut [u8],
) -> Result<usize, Refusal>
    requires { Made store.now area.now }
    ensures { Kept (record { store = store.now; area = area.now; buffer = out.old }) (calling (Call.Page (bounds_of bounds.entry) moment (record { rows = rows; bytes = bytes }))) (paged (wrote result) out.new) }
{
    mvcc::scan_page(store, area, moment, rows, bytes, bounds, out)
}

pub fn scan_intent_page(
    store: &Store,
    area: &[u8; AREA],
    limit: u64,
    bounds: Bounds,
    out: &mut [u8],
) -> Result<usize, Refusal>
    requires { Made store.now area.now }
    ensures { Kept (record { store = store.now; area = area.now; buffer = out.old }) (calling (Call.IntentPage (bounds_of bounds.entry) limit)) (paged (wrote result) out.new) }
{
    mvcc::scan_intent_page(store, area, limit, bounds, out)
}

pub fn scan_conflicting_intents(
    store: &Store,
    area: &[u8; AREA],
    moment: u64,
    locks: u64,
    bytes: u64,
    bounds: Bounds,
    out: &mut [u8],
) -> Result<usize, Refusal>
    requires { Made store.now area.now }
    ensures { Kept (record { store = store.now; area = area.now; buffer = out.old }) (calling (Call.ConflictingIntents (bounds_of bounds.entry) moment (record { rows = locks; bytes = bytes }))) (paged (wrote result) out.new) }
{
    mvcc::scan_conflicting_intents(store, area, moment, locks, bytes, bounds, out)
}

// A single form is tied to the batch's case, at the bytes of its batch of one; so are the two below.
pub fn prewrite(
    store: &mut Store,
    area: &mut [u8; AREA],
    txn: u64,
    start: u64,
    ttl: u64,
    primary: &[u8],
    key: &[u8],
    put: bool,
    row: &[u8],
) -> Result<(), Refusal>
    requires { Made store.old area.old }
    ensures { KeptOn store.old area.old (calling (Call.Change (Changing.Prewrite (record { txn = txn; start = start; primary = primary.now; ttl = ttl }) (one_mutation (record { key = key.now; row = when put row.now }))))) (changed (record { store = store.new; answer = outcome result }) area.new) }
{
    mvcc::prewrite(store, area, txn, start, ttl, primary, key, put, row)
}

pub fn prewrite_batch(
    store: &mut Store,
    area: &mut [u8; AREA],
    txn: u64,
    start: u64,
    ttl: u64,
    primary: &[u8],
    batch: &[u8],
) -> Result<(), Refusal>
    requires { Made store.old area.old }
    ensures { KeptOn store.old area.old (calling (Call.Change (Changing.Prewrite (record { txn = txn; start = start; primary = primary.now; ttl = ttl }) batch.now))) (changed (record { store = store.new; answer = outcome result }) area.new) }
{
    mvcc::prewrite_batch(store, area, txn, start, ttl, primary, batch)
}

pub fn commit_intent(
    store: &mut Store,
    area: &mut [u8; AREA],
    txn: u64,
    start: u64,
    commit: u64,
    key: &[u8],
) -> Result<(), Refusal>
    requires { Made store.old area.old }
    ensures { KeptOn store.old area.old (calling (Call.Change (Changing.Commit (record { txn = txn; start = start; commit = commit }) (one_key key.now)))) (changed (record { store = store.new; answer = outcome result }) area.new) }
{
    mvcc::commit_intent(store, area, txn, start, commit, key)
}

pub fn commit_intents_batch(
    store: &mut Store,
    area: &mut [u8; AREA],
    txn: u64,
    start: u64,
    commit: u64,
    batch: &[u8],
) -> Result<(), Refusal>
    requires { Made store.old area.old }
    ensures { KeptOn store.old area.old (calling (Call.Change (Changing.Commit (record { txn = txn; start = start; commit = commit }) batch.now))) (changed (record { store = store.new; answer = outcome result }) area.new) }
{
    mvcc::commit_intents_batch(store, area, txn, start, commit, batch)
}

pub fn rollback_intent(
    store: &mut Store,
    area: &mut [u8; AREA],
    txn: u64,
    start: u64,
    key: &[u8],
) -> Result<(), Refusal>
    requires { Made store.old area.old }
    ensures { KeptOn store.old area.old (calling (Call.Change (Changing.Rollback txn start (one_key key.now)))) (changed (record { store = store.new; answer = outcome result }) area.new) }
{
    mvcc::rollback_intent(store, area, txn, start, key)
}

pub fn rollback_intents_batch(
    store: &mut Store,
    area: &mut [u8; AREA],
    txn: u64,
    start: u64,
    batch: &[u8],
) -> Result<(), Refusal>
    requires { Made store.old area.old }
    ensures { KeptOn store.old area.old (calling (Call.Change (Changing.Rollback txn start batch.now))) (changed (record { store = store.new; answer = outcome result }) area.new) }
{
    mvcc::rollback_intents_batch(store, area, txn, start, batch)
}

pub fn commit_batch(
    store: &mut Store,
    area: &mut [u8; AREA],
    txn: u64,
    start: u64,
    commit: u64,
    batch: &[u8],
) -> Result<usize, Refusal>
    requires { Made store.old area.old }
    ensures { KeptOn store.old area.old (calling (Call.Change (Changing.OneStep (record { txn = txn; start = start; commit = commit }) batch.now))) (stepped (record { store = store.new; answer = outcome result; count = value_or 0 result }) area.new) }
{
    mvcc::commit_batch(store, area, txn, start, commit, batch)
}

// The area is lent as `&`: what the call leaves of it is the area itself.
pub fn collect(store: &mut Store, area: &[u8; AREA], floor: u64) -> Result<(), Refusal>
    requires { Made store.old area.now }
    ensures { KeptOn store.old area.now (calling (Call.Change (Changing.Collect floor))) (changed (record { store = store.new; answer = outcome result }) area.now) }
{
    mvcc::collect(store, area, floor)
}

pub fn restore(store: &mut Store, area: &mut [u8; AREA], image: &[u8]) -> Result<(), Refusal>
    requires { Made store.old area.old }
    ensures { KeptOn store.old area.old (calling (Call.Restore image.now)) (changed (record { store = store.new; answer = outcome result }) area.new) }
{
    mvcc::restore(store, area, image)
}

pub fn capture_snapshot_table(
    store: &Store,
    area: &[u8; AREA],
    table: u32,
    out: &mut [u8],
) -> Result<usize, Refusal>
    requires { Made store.now area.now }
    ensures { Kept (record { store = store.now; area = area.now; buffer = out.old }) (calling (Call.Capture table)) (paged (wrote result) out.new) }
{
    mvcc::capture_snapshot_table(store, area, table, out)
}

// The questions about a row take no store either.
pub fn convert_image(image: &[u8], out: &mut [u8]) -> Result<usize, Refusal>
    ensures { (store : Store) (area : Bytes) → Kept (record { store = store; area = area; buffer = out.old }) (calling (Call.Convert image.now)) (paged (wrote result) out.new) }
{
    mvcc::convert_image(image, out)
}

pub fn bone_shown(row: &[u8], n: u64) -> Result<bool, Refusal>
    ensures { (w : Lent) → Kept w (calling (Call.Bone row.now n)) (boned (told false result)) }
{
    mvcc::bone_shown(row, n)
}

pub fn bones_shown(row: &[u8]) -> Result<u8, Refusal>
    ensures { (w : Lent) → Kept w (calling (Call.Bones row.now)) (summed (told 0 result)) }
{
    mvcc::bones_shown(row)
}

pub fn stats(store: &Store, area: &[u8; AREA]) -> Stats
    requires { Made store.now area.now }
    ensures { KeptOn store.now area.now (calling Call.Statistics) (counted result) }
{
    mvcc::stats(store, area)
}

pub fn allocator_high_water_marks(store: &Store, area: &[u8; AREA]) -> Marks
    requires { Made store.now area.now }
    ensures { KeptOn store.now area.now (calling Call.Marks) (marked result) }
{
    mvcc::allocator_high_water_marks(store, area)
}
