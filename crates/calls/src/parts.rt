// The row of an entry, as a part of the batch.
ghost use Rattle.std.specs.Prelude.{◌≡◌};
ghost use Rattle.forms.specs.Places.{EntryIn, given_part};
ghost use Rattle.forms.specs.Readers.{given};

use forms::Entry;

pub fn row_of(batch: &[u8], e: Entry) -> Option<&[u8]>
    requires { EntryIn batch.now e }
    ensures { given result ≡ given_part batch.now e.row }
{
    match e.row {
        Some(row) => Some(row.of(batch)),
        None => None,
    }
}
