// "Room": what a box holds, counted four ways, and whether that is too much.
ghost use Rattle.std.specs.Prelude.{◌≡◌};
ghost use Rattle.rules.specs.Room.{fits};

// Lines, locks among them, defaults, live bytes.
#[derive(Clone, Copy)]
pub struct Load {
    pub lines: usize,
    pub locks: usize,
    pub defaults: usize,
    pub bytes: usize,
}

impl Load {
    // Of a box that holds nothing.
    pub const NONE: Load = Load {
        lines: 0,
        locks: 0,
        defaults: 0,
        bytes: 0,
    };
}

// "At most 1,024 lines (locks plus records), 256 locks, 1,024 defaults, 49,152 live bytes"
#[tactic(auto, unfolding(crate::specs::Room::fits))]
pub fn load_fits(l: Load) -> bool
    ensures { result ≡ fits l }
{
    l.lines <= 1024 && l.locks <= 256 && l.defaults <= 1024 && l.bytes <= 49152
}
