// "Numbers are big-endian": read at a place, at 2, 4 and 8 bytes, proved once over the width.
ghost use Rattle.std.specs.Prelude.{◌≡◌};
ghost use Rattle.forms.specs.Numbers.{width_of};
ghost use Rattle.forms.specs.Places.{NumberAt};

// The widths that the forms use. An enum and no const parameter: every width of the type fits a u64, where a number would need a clause that says so.
#[derive(Clone, Copy)]
pub enum Width {
    Two = 2,
    Four = 4,
    Eight = 8,
}

pub fn bytes_in(width: Width) -> usize
    ensures { result ≡ width_of width }
{
    width as usize
}

// What stands at a place; none where the bytes end before it does.
pub fn number_at(s: &[u8], at: usize, width: Width) -> Option<u64>
    ensures { NumberAt (width_of width) s.now at result }
{
    let bytes = s.get(at..)?.get(..bytes_in(width))?;
    let mut value: u64 = 0;
    for byte in bytes {
        value = value * 256 + u64::from(*byte);
    }
    Some(value)
}
