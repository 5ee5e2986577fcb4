// Keys: when one is in form, and the order of keys, from which equal and less are taken. Rows are compared by the same order.
// The library compares. `compare`, `same` and `below` stay as names of their own, since they promise it in the words of the paper.
ghost use Rattle.std.specs.Prelude.{◌≡◌};
ghost use Rattle.forms.specs.Bytes.{cmp, eq_bytes, lt_bytes};
ghost use Rattle.forms.specs.Key.{key_form};

use crate::number::{Width, number_at};
use std::cmp::Ordering;

// "bytewise unsigned, a proper prefix first"
#[tactic(auto, using(crate::proofs::CompareLaws::cmp_is))]
pub fn compare(a: &[u8], b: &[u8]) -> Ordering
    ensures { result ≡ cmp a.now b.now }
{
    a.cmp(&b)
}

// The lengths and the last bytes are asked first: keys of one table begin alike.
#[tactic(auto, using(crate::proofs::CompareLaws::eq_is, crate::proofs::SameLaws::long_unlike))]
pub fn same(a: &[u8], b: &[u8]) -> bool
    ensures { result ≡ eq_bytes a.now b.now }
{
    if a.len() != b.len() {
        return false;
    }
    if a.last().copied() != b.last().copied() {
        return false;
    }
    a == b
}

#[tactic(auto, using(crate::proofs::CompareLaws::lt_is))]
pub fn below(a: &[u8], b: &[u8]) -> bool
    ensures { result ≡ lt_bytes a.now b.now }
{
    compare(a, b).is_lt()
}

// "table number, 4 bytes, not zero; then a name of 1 to 44 bytes, any values. Length 5 to 48."
#[tactic(auto, using(crate::proofs::KeyFormLaws::key_table), unfolding(crate::specs::Key::key_form))]
pub fn key_in_form(key: &[u8]) -> bool
    ensures { result ≡ key_form key.now }
{
    5 <= key.len() && key.len() <= 48 && number_at(key, 0, Width::Four) != Some(0)
}
