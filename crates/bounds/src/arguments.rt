// "3; start 1; end 1; 4; resume 1; resume at or past end": the checks of a page's arguments.
ghost use Rattle.std.specs.Prelude.{◌≡◌};
ghost use Rattle.rules.specs.Page.{absent_or, both_below, bounds_step, page_arguments, past_end};
ghost use Rattle.rules.specs.Outcomes.{outcome};
ghost use Rattle.bounds.specs.Bounds.{bounds_of};
ghost use Rattle.forms.specs.Readers.{given};

use crate::asked::Bounds;
use rules::Refusal;

fn absent_or(key: Option<&[u8]>) -> bool
    ensures { result ≡ absent_or (given key.entry) }
{
    key.is_none_or(|k| forms::key_in_form(k))
}

// "scan start not below scan end"
fn both_below(start: Option<&[u8]>, end: Option<&[u8]>) -> bool
    ensures { result ≡ both_below (given start.entry) (given end.entry) }
{
    match (start, end) {
        (Some(s), Some(e)) => forms::below(s, e),
        _ => true,
    }
}

impl Bounds<'_> {
    // "start 1; end 1; 4; resume 1"
    #[tactic(auto, using(laws::proofs::ChainLaws::chain), unfolding(rules::specs::Page::bounds_step))]
    fn step(&self) -> Result<(), Refusal>
        ensures { outcome result ≡ bounds_step (bounds_of self.now) }
    {
        if !absent_or(self.start) || !absent_or(self.end) {
            return Err(Refusal::KeyForm);
        }
        if !both_below(self.start, self.end) {
            return Err(Refusal::ScanRange);
        }
        if !absent_or(self.resume) {
            return Err(Refusal::KeyForm);
        }
        Ok(())
    }

    // "3; start 1; end 1; 4; resume 1". "Page's argument checks without byte limit" are those with a byte limit that is not 0.
    #[tactic(auto, using(laws::proofs::ChainLaws::chain), unfolding(rules::specs::Page::page_arguments))]
    pub fn page_arguments(&self, rows: u64, bytes: u64) -> Result<(), Refusal>
        ensures { outcome result ≡ page_arguments rows bytes (bounds_of self.now) }
    {
        if rows == 0 || bytes == 0 {
            return Err(Refusal::Argument);
        }
        self.step()
    }

    // "resume at or past end"
    pub fn past_end(&self) -> bool
        ensures { result ≡ past_end (bounds_of self.now).resume (bounds_of self.now).to }
    {
        match (self.resume, self.end) {
            (Some(r), Some(e)) => !forms::below(r, e),
            _ => false,
        }
    }
}
