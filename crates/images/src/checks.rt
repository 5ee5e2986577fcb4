// The checks that restore and the converter make of one entry.
ghost use Rattle.std.specs.Prelude.{◌≡◌, not};
ghost use Rattle.rules.specs.declared.records.Kind.TheVariants.{Rollback};
ghost use Rattle.rules.specs.Box.{eq_kind};
ghost use Rattle.rules.specs.Sound.{sound_lock, sound_record};
ghost use Rattle.rules.specs.Restore.{of_table};
ghost use Rattle.images.specs.Entries.{raw_of, Lies};
ghost use Rattle.images.specs.Good.{lock_of, form_of, start_and_row, fits, GoodAt};

use crate::entries::{ImageEntry, Section, entry_at};
use forms::key::key_in_form;
use forms::number::{Width, number_at};
use forms::row::{old_row_in_form, row_in_form};
use rules::records::{Kind, Record, record_sound};

// The form of an image: document 01's, for the converter, with its own rows and without a floor; or the one that stands.
#[derive(Clone, Copy)]
pub enum Form {
    Old,
    New,
}

// "key of this table"
fn of_table(key: &[u8], table: u64) -> bool
    ensures { result ≡ of_table table key.now }
{
    key_in_form(key) && number_at(key, 0, Width::Four) == Some(table)
}

// "a 255-byte row": no count can be added to it
fn row_good(row: &[u8], form: Form) -> bool
    ensures { result ≡ form_of form row.now }
{
    match form {
        Form::Old => row.len() != 255 && old_row_in_form(row),
        Form::New => row_in_form(row),
    }
}

// "default start not 0, row decodes"
fn default_good(s: &[u8], form: Form, e: ImageEntry) -> bool
    requires { Lies s.now e }
    ensures { result ≡ start_and_row (form_of form) (raw_of s.now e) }
{
    e.first != 0 && row_good(e.piece.of(s), form)
}

// "kind Put or Delete"
fn may_stand(kind: Kind) -> bool
    ensures { result ≡ not (eq_kind kind Rollback) }
{
    matches!(kind, Kind::Put | Kind::Delete)
}

// "lock sound": "transaction, start, time to live not 0, kind Put or Delete, primary a key"
#[tactic(auto, unfolding(rules::specs::Sound::sound_lock))]
fn lock_good(s: &[u8], e: ImageEntry, kind: Kind) -> bool
    requires { Lies s.now e }
    ensures { result ≡ sound_lock (lock_of (raw_of s.now e) kind) }
{
    e.first != 0 && e.second != 0 && e.third != 0 && may_stand(kind) && key_in_form(e.piece.of(s))
}

// "record sound"
fn write_good(e: ImageEntry, kind: Kind) -> bool
    ensures { result ≡ sound_record (record { stamp = e.first; start = e.second; commit = e.third; kind = kind }) }
{
    record_sound(Record {
        stamp: e.first,
        start: e.second,
        commit: e.third,
        kind,
    })
}

// The key is of this table, and what follows it is good: a lock or a write has a kind.
#[tactic(auto, unfolding(crate::specs::Good::fits))]
fn entry_good(s: &[u8], section: Section, form: Form, table: u64, e: ImageEntry) -> bool
    requires { Lies s.now e }
    ensures { result ≡ fits (form_of form) section table (raw_of s.now e) }
{
    if !of_table(e.key.of(s), table) {
        return false;
    }
    match (section, e.kind) {
        (Section::Default, _) => default_good(s, form, e),
        (Section::Lock, Ok(kind)) => lock_good(s, e, kind),
        (Section::Write, Ok(kind)) => write_good(e, kind),
        (Section::Lock | Section::Write, Err(_)) => false,
    }
}

// An entry that is in form and good.
pub fn good_at(s: &[u8], at: usize, section: Section, form: Form, table: u64) -> Option<ImageEntry>
    ensures { GoodAt (form_of form) section table s.now at result }
{
    let e = entry_at(s, at, section)?;
    if !entry_good(s, section, form, table, e) {
        return None;
    }
    Some(e)
}
