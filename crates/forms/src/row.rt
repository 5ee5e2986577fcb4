// Rows: when one is in form, and its bones. Each section is passed over by a function of its own.
ghost use Rattle.std.specs.Prelude.{◌≡◌, ◌+◌, ◌≤◌, length, drop};
ghost use Rattle.forms.specs.Bytes.{bytes_at};
ghost use Rattle.forms.specs.Readers.{piece, times};
ghost use Rattle.forms.specs.Row.{integers, texts, fields, old_row_form, mask_bytes, spares_zero, row_form};
ghost use Rattle.forms.specs.Places.{CountAt, RestAt, rest_of, BonesAt, RowBones};

use crate::part::part_at;

// "count byte 0 to 8": how many a section has; none where the bytes end before its count, or it is above 8.
#[tactic(auto, using(crate::proofs::RowLaws::count_none, crate::proofs::RowLaws::count_many, crate::proofs::RowLaws::count_good))]
fn count_at(s: &[u8], at: usize) -> Option<usize>
    ensures { CountAt s.now at result }
{
    let n = usize::from(*s.get(at)?);
    if 8 < n {
        return None;
    }
    Some(n)
}

// "count byte 0 to 8, that many 8-byte signed integers": where they end.
#[tactic(auto, using(crate::proofs::RowLaws::integers_none, crate::proofs::RowLaws::integers_short, crate::proofs::RowLaws::integers_good))]
fn integers_end(s: &[u8], at: usize) -> Option<usize>
    ensures { RestAt s.now (rest_of (integers (drop at s.now))) result }
{
    let size = 8 * count_at(s, at)?;
    if s.len() - at - 1 < size {
        return None;
    }
    Some(at + 1 + size)
}

// "that many texts, each a length byte and its bytes": where they end.
fn pieces_end(s: &[u8], at: usize, count: usize) -> Option<usize>
    requires { at ≤ length s.now }
    ensures { RestAt s.now (rest_of (times count piece (drop at s.now))) result }
{
    let mut end = at;
    for _ in 0..count {
        end = part_at(s, end)?.end();
    }
    Some(end)
}

// "count byte 0 to 8, that many texts, each a length byte and its bytes": where they end.
#[tactic(auto, using(crate::proofs::RowLaws::texts_none, crate::proofs::RowLaws::texts_are, crate::proofs::RowLaws::rest_as))]
fn texts_end(s: &[u8], at: usize) -> Option<usize>
    ensures { RestAt s.now (rest_of (texts (drop at s.now))) result }
{
    let count = count_at(s, at)?;
    pieces_end(s, at + 1, count)
}

// Document 01's two sections, one after the other: where they end.
#[tactic(auto, using(crate::proofs::RowLaws::fields_none, crate::proofs::RowLaws::fields_are, crate::proofs::RowLaws::rest_as))]
fn fields_end(row: &[u8]) -> Option<usize>
    ensures { RestAt row.now (rest_of (fields row.now)) result }
{
    let end = integers_end(row, 0)?;
    texts_end(row, end)
}

// Document 01's own form: "Length 2 to 255", its sections, and nothing after them.
#[tactic(auto, using(crate::proofs::RowLaws::old_ends), unfolding(crate::specs::Row::old_row_form))]
pub fn old_row_in_form(row: &[u8]) -> bool
    ensures { result ≡ old_row_form row.now }
{
    2 <= row.len() && row.len() <= 255 && fields_end(row) == Some(row.len())
}

// A row's bones: how many, and from where to where their mask lies.
#[derive(Clone, Copy)]
pub struct Mask {
    pub count: usize,
    pub at: usize,
    pub end: usize,
}

// "spare bits zero": what the last byte holds above the last bone, where the bones do not fill it.
fn spares_zero(s: &[u8], at: usize, n: usize) -> bool
    requires { at + mask_bytes n ≤ length s.now }
    ensures { result ≡ spares_zero n (bytes_at s.now at (mask_bytes n)) }
{
    let filled = n % 8;
    filled == 0 || s[at + n / 8] >> filled == 0
}

// "a bone count byte 0 to 255, then the fewest bytes that hold one bit a bone, .. spare bits zero"
fn bones_at(s: &[u8], at: usize) -> Option<Mask>
    ensures { BonesAt s.now at result }
{
    let count = usize::from(*s.get(at)?);
    let size = (count + 7) / 8;
    if s.len() - at - 1 < size || !spares_zero(s, at + 1, count) {
        return None;
    }
    Some(Mask {
        count,
        at: at + 1,
        end: at + 1 + size,
    })
}

// The bones of a row: "Lengths stay at most 255, the smallest row is 00 00 00", the sections in their order, and nothing after them.
pub fn bones_in(row: &[u8]) -> Option<Mask>
    ensures { RowBones row.now result }
{
    if row.len() < 3 || 255 < row.len() {
        return None;
    }
    let end = fields_end(row)?;
    let mask = bones_at(row, end)?;
    if mask.end != row.len() {
        return None;
    }
    Some(mask)
}

pub fn row_in_form(row: &[u8]) -> bool
    ensures { result ≡ row_form row.now }
{
    bones_in(row).is_some()
}
