// Which keys a page asks for: "from start (from after resume, if start is absent or not above resume) to before end".
ghost use Rattle.std.specs.Prelude.{◌≡◌, ◌+◌, ◌≤◌, length};
ghost use Rattle.forms.specs.Bytes.{eq_bytes};
ghost use Rattle.rules.specs.Page.{from_on, before_end, in_bounds};
ghost use Rattle.store.specs.View.{place_of, key_of};
ghost use Rattle.bounds.specs.Bounds.{bounds_of};

use crate::asked::Bounds;
use store::{Slot, place_of};

impl Bounds<'_> {
    // "from start (from after resume, if start is absent or not above resume)"
    fn begin_by(&self, key: &[u8]) -> bool
        ensures { result ≡ from_on (bounds_of self.now).from (bounds_of self.now).resume key.now }
    {
        match (self.start, self.resume) {
            (None, None) => true,
            (Some(start), None) => !forms::below(key, start),
            (None, Some(resume)) => forms::below(resume, key),
            (Some(start), Some(resume)) => {
                if forms::below(resume, start) {
                    !forms::below(key, start)
                } else {
                    forms::below(resume, key)
                }
            }
        }
    }

    // "to before end"
    fn end_after(&self, key: &[u8]) -> bool
        ensures { result ≡ before_end (bounds_of self.now).to key.now }
    {
        self.end.is_none_or(|end| forms::below(key, end))
    }

    pub fn hold(&self, key: &[u8]) -> bool
        ensures { result ≡ in_bounds (bounds_of self.now) key.now }
    {
        self.begin_by(key) && self.end_after(key)
    }

    // Whether the key of a slot lies within the bounds.
    pub fn hold_slot(&self, s: Slot, area: &[u8]) -> bool
        requires { place_of s + s.len ≤ length area.now }
        ensures { result ≡ in_bounds (bounds_of self.now) (key_of area.now s) }
    {
        let at = place_of(s);
        self.hold(&area[at..at + s.len as usize])
    }
}

// Whether two slots have one key.
pub fn slots_share(s: Slot, t: Slot, area: &[u8]) -> bool
    requires { (place_of s + s.len ≤ length area.now) × (place_of t + t.len ≤ length area.now) }
    ensures { result ≡ eq_bytes (key_of area.now s) (key_of area.now t) }
{
    let sa = place_of(s);
    let ta = place_of(t);
    forms::same(
        &area[sa..sa + s.len as usize],
        &area[ta..ta + t.len as usize],
    )
}
