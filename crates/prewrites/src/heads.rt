// What a prewrite says of its transaction.
ghost use Rattle.std.specs.Prelude.{◌≡◌};
ghost use Rattle.rules.specs.Prewrite.{prewrite_terms_step};
ghost use Rattle.rules.specs.Outcomes.{outcome};
ghost use Rattle.prewrites.specs.Checks.{with_primary};

use calls::zero_step;
use forms::key_in_form;
use rules::Refusal;

// The numbers of a call's head; its primary is beside them.
#[derive(Clone, Copy)]
pub struct LockTerms {
    pub txn: u64,
    pub start: u64,
    pub ttl: u64,
}

// "transaction, start 3; primary 1; time to live 3": the terms' steps on the floor 0, where 14 never comes. The checking pass asks the store's
// floor.
pub fn terms_step(terms: LockTerms, primary: &[u8]) -> Result<(), Refusal>
    ensures { outcome result ≡ prewrite_terms_step 0 (with_primary terms primary.now) }
{
    zero_step(terms.txn, terms.start)?;
    if !key_in_form(primary) {
        return Err(Refusal::KeyForm);
    }
    if terms.ttl == 0 {
        return Err(Refusal::Argument);
    }
    Ok(())
}
