// "an image with such a lock is 13": a lock that starts at or below the image's floor.
ghost use Rattle.std.specs.Prelude.{◌≡◌};
ghost use Rattle.rules.specs.Restore.{lock_above};
ghost use Rattle.faults.specs.Judged.{lock_at, locks_above};

use images::{Section, stood_at};

fn starts_above(s: &[u8], floor: u64, place: u32) -> bool
    ensures { result ≡ lock_above floor (lock_at s.now place) }
{
    floor < stood_at(s, place, Section::Lock).second
}

// Whether the locks at these places start above the floor.
pub(crate) fn locks_above(s: &[u8], floor: u64, locks: &[u32]) -> bool
    ensures { result ≡ locks_above s.now floor locks.now }
{
    locks.iter().all(|place| starts_above(s, floor, *place))
}
