// "Read: 1; lock with start at or below the moment, 7; then records from the newest at or below the moment downward, each checked (9):
// Rollback, go on; Delete, nothing; Put, its default must exist and decode (9), shown." A store's records are sound and its rows in form:
// no step tests it. The lookup counts the records that a read examines. 02, CR 7: "14, below the floor, for a read .. moment below F (in a read
// after 1 ..)".
ghost use Rattle.std.specs.Prelude.{◌≡◌};
ghost use Rattle.forms.specs.Bytes.{Bytes};
ghost use Rattle.rules.specs.Outcomes.{outcome};
ghost use Rattle.rules.specs.Read.{lock_lets, examine};
ghost use Rattle.store.specs.View.{box_of};
ghost use Rattle.store.specs.Made.{Made};
ghost use Rattle.lookups.specs.KeyStates.{locked_by};
ghost use Rattle.reads.specs.Seen.{newest_seen, unread, ReadAs, ReadBy};

use crate::seen::Reading;
use forms::Part;
use lookups::KeyState;
use rules::{Kind, Refusal};
use store::{AREA, LockView, RecordView, Store};

// "lock with start at or below the moment, 7"
pub fn lock_lets(lock: Option<LockView>, moment: u64) -> Result<(), Refusal>
    ensures { (area : Bytes) → outcome result ≡ lock_lets moment (locked_by area lock) }
{
    match lock {
        Some(l) if l.start <= moment => Err(store::held_by(l)),
        _ => Ok(()),
    }
}

// What the newest record that counts shows.
fn newest_row(newest: Option<RecordView>) -> Option<Part>
    ensures { result ≡ newest_seen newest }
{
    let w = newest?;
    match w.kind {
        Kind::Put => Some(Part {
            at: w.rowat,
            len: w.rowlen,
        }),
        Kind::Delete | Kind::Rollback => None,
    }
}

// "Other refusals still count 0"
fn refusal(why: Refusal) -> Reading
    ensures { result ≡ unread why }
{
    Reading {
        seen: Err(why),
        count: 0,
    }
}

// What a read gives, by what stands at its key.
fn read_found(found: KeyState, moment: u64) -> Reading
    ensures { ReadBy found moment result }
{
    if let Err(why) = lock_lets(found.lock, moment) {
        return refusal(why);
    }
    let row = newest_row(found.history.visible);
    Reading {
        seen: Ok(row),
        count: found.history.examined,
    }
}

pub fn read(store: &Store, area: &[u8; AREA], key: &[u8], moment: u64) -> Reading
    requires { Made store.now area.now }
    ensures { ReadAs (examine store.now.floor key.now moment (box_of store.now area.now)) area.now result }
{
    if !forms::key_in_form(key) {
        return refusal(Refusal::KeyForm);
    }
    if moment < store.floor {
        return refusal(Refusal::BelowFloor);
    }
    read_found(lookups::look_up(store, area, key, 0, moment), moment)
}
