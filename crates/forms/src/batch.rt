// Batches: "2-byte count 0 to 32", then entries whose keys strictly ascend as raw bytes; key and row contents are judged later.
// A batch is judged and decoded in one walk: the places of its entries, numbers only, which every pass of a call then goes by.
ghost use Rattle.std.specs.Prelude.{◌≡◌, ◌≤◌, Bool, true, false, length, drop};
ghost use Rattle.forms.specs.Batch.{if_ascend, batch_of, mutations, keys};
ghost use Rattle.forms.specs.Places.{PartIn, GivenIn, part_of, given_part, key_at, mutation_of, StepAt, item_at, item_key, item_of, entries, Decoded, above_head};

pub use crate::entries::Entries;
use crate::key::below;
use crate::number::{Width, number_at};
use crate::part::{Part, part_at};

// The places of one entry: its key, and a Put's row.
#[derive(Clone, Copy, Default)]
pub struct Entry {
    pub key: Part,
    pub row: Option<Part>,
}

// An entry, and where the next begins.
#[derive(Clone, Copy)]
pub struct Step {
    pub entry: Entry,
    pub next: usize,
}

// What a batch is a list of.
trait Form {
    ghost rows: { Bool };

    fn step_at(s: &[u8], at: usize) -> Option<Step>
        ensures { StepAt (item_at rows) (item_of rows s.now) s.now at result };
}

struct Mutations;

impl Form for Mutations {
    ghost rows = { true };

    // "for each a key length byte, key, kind byte (1 Put, 2 Delete) and, for a Put only, a row length byte and row"
    fn step_at(s: &[u8], at: usize) -> Option<Step> {
        let key = part_at(s, at)?;
        let kind = key.end();
        match *s.get(kind)? {
            1 => {
                let row = part_at(s, kind + 1)?;
                Some(Step {
                    entry: Entry {
                        key,
                        row: Some(row),
                    },
                    next: row.end(),
                })
            }
            2 => Some(Step {
                entry: Entry { key, row: None },
                next: kind + 1,
            }),
            _ => None,
        }
    }
}

struct Keys;

impl Form for Keys {
    ghost rows = { false };

    // "length byte and key"
    fn step_at(s: &[u8], at: usize) -> Option<Step> {
        let key = part_at(s, at)?;
        Some(Step {
            entry: Entry { key, row: None },
            next: key.end(),
        })
    }
}

// Whether a key is above the one before it, if there is one.
fn follows(s: &[u8], last: Option<Part>, key: Part) -> bool
    requires { (GivenIn s.now last) × (PartIn s.now key) }
    ensures { result ≡ above_head (given_part s.now last) (part_of s.now key) }
{
    match last {
        Some(last) => below(last.of(s), key.of(s)),
        None => true,
    }
}

// "Keys strictly ascend", and nothing may follow the last.
fn read_all<F: Form>(s: &[u8], count: usize) -> Option<Entries>
    requires { (2 ≤ length s.now) × (count ≤ 32) }
    ensures { Decoded (item_of F.rows s.now) s.now (if_ascend (item_key F.rows) (entries (item_at F.rows) count (drop 2 s.now))) result }
{
    let mut list = Entries::new();
    let mut last = None;
    let mut at: usize = 2;
    for _ in 0..count {
        let step = F::step_at(s, at)?;
        if !follows(s, last, step.entry.key) {
            return None;
        }
        list.push(step.entry);
        last = Some(step.entry.key);
        at = step.next;
    }
    if at != s.len() {
        return None;
    }
    Some(list)
}

// "count 0 to 32"
const MOST: u64 = 32;

fn decode<F: Form>(s: &[u8]) -> Option<Entries>
    ensures { Decoded (item_of F.rows s.now) s.now (batch_of (item_key F.rows) (item_at F.rows) s.now) result }
{
    let count = number_at(s, 0, Width::Two)?;
    if MOST < count {
        return None;
    }
    read_all::<F>(s, count as usize)
}

// "Mutation batch: 2-byte count 0 to 32, then for each ..; Keys strictly ascend"
#[tactic(auto, unfolding(crate::specs::Batch::mutations))]
pub fn mutations_of(batch: &[u8]) -> Option<Entries>
    ensures { Decoded (mutation_of batch.now) batch.now (mutations batch.now) result }
{
    decode::<Mutations>(batch)
}

// "Key batch: 2-byte count 0 to 32, then length byte and key. Keys strictly ascend"
#[tactic(auto, unfolding(crate::specs::Batch::keys))]
pub fn keys_of(batch: &[u8]) -> Option<Entries>
    ensures { Decoded (key_at batch.now) batch.now (keys batch.now) result }
{
    decode::<Keys>(batch)
}
