// What the lines of a key so far say to a page.
ghost use Rattle.std.specs.Prelude.{◌≡◌};
ghost use Rattle.turns.specs.Dues.{due_in, no_due, see_row, see_lock, due_after};

use crate::asked::{PageQuery, Scan};
use rules::{Kind, Refusal};
use store::{LineView, Slot};

// Whether the key's lock lets a read pass, and the line that the page would list for the key, if any. No `Result` of the line, since the definition keeps
// the line beside a refusal.
#[derive(Clone, Copy)]
pub struct Due {
    pub lets: Result<(), Refusal>,
    pub line: Option<Slot>,
}

pub fn no_due() -> Due
    ensures { due_in result ≡ no_due }
{
    Due {
        lets: Ok(()),
        line: None,
    }
}

// "keys of locks only", and of those in the way of a read, "skipped if it starts above the moment". The flag
// is the definition's: both pages are one step.
fn see_lock(every: bool, moment: u64, s: Slot, line: LineView) -> Due
    ensures { due_in result ≡ see_lock every moment s line }
{
    match line {
        LineView::Standing(l) if every || l.start <= moment => Due {
            line: Some(s),
            ..no_due()
        },
        LineView::Standing(_) => no_due(),
        LineView::Finished(_) => no_due(),
    }
}

impl Due {
    // "Each key is read first": one line more of it.
    fn with_row(self, moment: u64, s: Slot, line: LineView) -> Due
        ensures { due_in result ≡ see_row moment (due_in self) s line }
    {
        match line {
            LineView::Standing(l) => Due {
                lets: reads::lock_lets(Some(l), moment),
                ..self
            },
            LineView::Finished(w) if moment < w.stamp => self,
            LineView::Finished(w) => match w.kind {
                Kind::Put => Due {
                    line: Some(s),
                    ..self
                },
                Kind::Delete => Due { line: None, ..self },
                Kind::Rollback => self,
            },
        }
    }

    // One line more.
    pub fn with(self, asked: &PageQuery, s: Slot, line: LineView) -> Due
        ensures { due_in result ≡ due_after asked.now.scan asked.now.moment (due_in self) s line }
    {
        match asked.scan {
            Scan::Rows => self.with_row(asked.moment, s, line),
            Scan::Intents => see_lock(true, asked.moment, s, line),
            Scan::Conflicts => see_lock(false, asked.moment, s, line),
        }
    }
}
