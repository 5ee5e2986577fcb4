// Kinds with their numbers, finished records, and when a record is sound.
ghost use Rattle.std.specs.Prelude.{◌≡◌};
ghost use Rattle.rules.specs.Box.{kind_byte};
ghost use Rattle.rules.specs.Sound.{sound_record, kind_fits};

// "Kinds: 1 Put, 2 Delete, 3 Rollback"; a standing intent is a Put or a Delete.
#[derive(Clone, Copy, PartialEq, Eq)]
pub enum Kind {
    Put,
    Delete,
    Rollback,
}

impl From<Kind> for u8 {
    ghost from_gives = { λ kind n. n ≡ kind_byte kind };

    fn from(kind: Kind) -> Self {
        match kind {
            Kind::Put => 1,
            Kind::Delete => 2,
            Kind::Rollback => 3,
        }
    }
}

// A finished record: its write stamp, and the start, commit and kind that it says.
#[derive(Clone, Copy)]
pub struct Record {
    pub stamp: u64,
    pub start: u64,
    pub commit: u64,
    pub kind: Kind,
}

// "Put and Delete have commit above start, Rollback has commit equal to start"
fn kind_fits(kind: Kind, start: u64, commit: u64) -> bool
    ensures { result ≡ kind_fits kind start commit }
{
    match kind {
        Kind::Put | Kind::Delete => start < commit,
        Kind::Rollback => commit == start,
    }
}

// "Sound record: its commit equals its write stamp; start not 0; .."
pub fn record_sound(w: Record) -> bool
    ensures { result ≡ sound_record w }
{
    w.commit == w.stamp && w.start != 0 && kind_fits(w.kind, w.start, w.commit)
}
