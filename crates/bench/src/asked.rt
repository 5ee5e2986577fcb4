// A call's arguments in the input: three numbers of 8 bytes; the lengths of the primary, of the key, and of the row or the batch, 2 bytes each;
// then their bytes. A call that has no such argument has zeros and no bytes there.
ghost use Rattle.std.specs.Prelude.{◌<◌, length, IfSome};

use forms::{Width, number_at};

#[derive(Clone, Copy)]
pub struct Asked<'a> {
    pub one: u64,
    pub two: u64,
    pub three: u64,
    pub primary: &'a [u8],
    pub key: &'a [u8],
    pub row: &'a [u8],
}

// A number of 8 bytes, and a length of 2, in the 30 bytes before a call's own.
fn number_in(head: &[u8], at: usize) -> u64 {
    number_at(head, at, Width::Eight).unwrap_or(0)
}

fn length_in(head: &[u8], at: usize) -> usize {
    number_at(head, at, Width::Two).unwrap_or(0) as usize
}

// The first call of these bytes, and the bytes after it; nothing where they are too few for one.
fn whole_call(s: &[u8]) -> Option<(Asked<'_>, &[u8])>
    ensures { IfSome result (λ r. length r.1.now < length s.now) }
{
    let (head, rest) = s.split_at_checked(30)?;
    let (primary, rest) = rest.split_at_checked(length_in(head, 24))?;
    let (key, rest) = rest.split_at_checked(length_in(head, 26))?;
    let (row, rest) = rest.split_at_checked(length_in(head, 28))?;
    let asked = Asked {
        one: number_in(head, 0),
        two: number_in(head, 8),
        three: number_in(head, 16),
        primary,
        key,
        row,
    };
    Some((asked, rest))
}

// The same, and where the bytes are too few a call with zeros and no bytes, which is the last.
pub fn first_call(s: &[u8]) -> (Asked<'_>, &[u8])
    requires { 0 < length s.now }
    ensures { length result.1.now < length s.now }
{
    let none = &s[..0];
    whole_call(s).unwrap_or((
        Asked {
            one: 0,
            two: 0,
            three: 0,
            primary: none,
            key: none,
            row: none,
        },
        none,
    ))
}
