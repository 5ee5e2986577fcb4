// Tests that several calls make, as rules' Calls says them.
ghost use Rattle.std.specs.Prelude.{◌≡◌, not, ◌+◌, ◌≤◌, eqb, ltb, length, IfOk};
ghost use Rattle.std.proofs.Math.Option.{some};
ghost use Rattle.forms.specs.Bytes.{Bytes, bytes_at};
ghost use Rattle.rules.specs.Answers.{◌▸◌, need};
ghost use Rattle.rules.specs.Outcomes.{outcome};
ghost use Rattle.rules.specs.Calls.{zero_step, row_argument, row_stands};
ghost use Rattle.lookups.specs.KeyStates.{locked_by};
ghost use Rattle.changes.specs.Changes.{entry_for};
ghost use Rattle.forms.specs.Readers.{given};
ghost use Rattle.calls.specs.Steps.{is_there, those, in_form, entries_read, argument_step, own_step};

use forms::{Entries, Entry};
use rules::Refusal;
use store::LockView;

// "6, 5", of a batch's entries, if it is in form, and then the steps of the call's terms
#[tactic(auto, using(laws::proofs::ChainLaws::chain))]
pub fn batch_step(entries: Option<&[Entry]>, terms: Result<(), Refusal>) -> Result<(), Refusal>
    ensures { outcome result ≡ need (is_there entries.entry) 6 ▸ need (not (eqb (length (those entries.entry)) 0)) 5 ▸ outcome terms }
{
    let Some(entries) = entries else {
        return Err(Refusal::BatchForm);
    };
    if entries.is_empty() {
        return Err(Refusal::EmptyBatch);
    }
    terms
}

// The same of a batch as it was decoded; where they pass, its entries.
#[tactic(auto, using(laws::proofs::ChainLaws::chain))]
pub fn decoded_step<'a>(
    decoded: &'a Option<Entries>,
    terms: Result<(), Refusal>,
) -> Result<&'a [Entry], Refusal>
    ensures answer { outcome result ≡ need (in_form decoded.now) 6 ▸ need (not (eqb (length (entries_read decoded.now)) 0)) 5 ▸ outcome terms }
    ensures entries { IfOk result (λ es. es.now ≡ entries_read decoded.now) }
{
    let entries = match decoded {
        Some(batch) => Some(batch.as_slice()),
        None => None,
    };
    batch_step(entries, terms)?;
    Ok(entries.unwrap_or(&[]))
}

// "zero transaction, start": 3
#[tactic(auto, using(laws::proofs::ChainLaws::chain), unfolding(rules::specs::Calls::zero_step))]
pub fn zero_step(txn: u64, start: u64) -> Result<(), Refusal>
    ensures { outcome result ≡ zero_step txn start }
{
    if txn == 0 || start == 0 {
        return Err(Refusal::Argument);
    }
    Ok(())
}

// "for a start at or below F in any changing call": 14.
#[tactic(auto, using(laws::proofs::ChainLaws::chain))]
pub fn floor_step(floor: u64, start: u64) -> Result<(), Refusal>
    ensures { outcome result ≡ need (ltb floor start) 14 }
{
    if start <= floor {
        return Err(Refusal::BelowFloor);
    }
    Ok(())
}

// "2": a Put's row is in form; a Delete's row argument is ignored.
pub fn row_argument(row: Option<&[u8]>) -> bool
    ensures { result ≡ row_argument (given row.entry) }
{
    row.is_none_or(|r| forms::row_in_form(r))
}

// "1, 2", of one entry
#[tactic(auto, using(laws::proofs::ChainLaws::chain), unfolding(crate::specs::Steps::argument_step))]
pub fn argument_step(key: &[u8], row: Option<&[u8]>) -> Result<(), Refusal>
    ensures { outcome result ≡ argument_step (entry_for key.now (given row.entry)) }
{
    if !forms::key_in_form(key) {
        return Err(Refusal::KeyForm);
    }
    if !row_argument(row) {
        return Err(Refusal::RowForm);
    }
    Ok(())
}

// "another's lock 7"
pub fn own_step(lock: Option<LockView>, txn: u64, start: u64) -> Result<(), Refusal>
    ensures { (area : Bytes) → outcome result ≡ own_step txn start (locked_by area lock) }
{
    match lock {
        None => Ok(()),
        Some(l) => {
            if !store::owns(l, txn, start) {
                return Err(store::held_by(l));
            }
            Ok(())
        }
    }
}

// "for a Put, this row": the one that a line carries.
pub fn row_stands(row: Option<&[u8]>, area: &[u8], at: usize, len: usize) -> bool
    requires { at + len ≤ length area.now }
    ensures { result ≡ row_stands (given row.entry) (some (bytes_at area.now at len)) }
{
    match row {
        None => true,
        Some(r) => forms::same(r, &area[at..at + len]),
    }
}
