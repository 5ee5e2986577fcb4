// The steps that a commit and a one-step batch make on their terms.
ghost use Rattle.std.specs.Prelude.{◌≡◌};
ghost use Rattle.rules.specs.Commit.{commit_terms_step};
ghost use Rattle.rules.specs.Outcomes.{outcome};

use crate::steps::{floor_step, zero_step};
use rules::{CommitTerms, Refusal};

// "3": "zero transaction, start ..; commit not above start"; "after the last 3" 14, a start at or below the floor
pub fn commit_terms_step(floor: u64, terms: CommitTerms) -> Result<(), Refusal>
    ensures { outcome result ≡ commit_terms_step floor terms }
{
    zero_step(terms.txn, terms.start)?;
    if terms.commit <= terms.start {
        return Err(Refusal::Argument);
    }
    floor_step(floor, terms.start)
}
