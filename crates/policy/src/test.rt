// The test of code and the test of a slip against a policy.
ghost use Rattle.std.specs.Prelude.{◌≡◌};
ghost use Rattle.program.specs.Reading.{read_at};
ghost use Rattle.policy.specs.Counts.{policy_allows};
ghost use Rattle.policy.specs.Tallies.{fault_of, slip_test, test_of};

use crate::table::{fits_all, slip_counts};
use crate::tally::needs_at;
use program::Fault;

// Why code does not pass: no whole program stands there, or it is not honest, or its needs do not fit.
#[derive(Clone, Copy, Debug, PartialEq, Eq)]
pub enum CodeFault {
    Unread,
    NotHonest,
    NotFitting,
}

impl From<Fault> for CodeFault {
    ghost from_gives = { λ f r. r ≡ fault_of f };

    fn from(_fault: Fault) -> CodeFault {
        CodeFault::Unread
    }
}

// The code at `at`: honest at every depth first, then its needs against the policy's 32 counts.
#[tactic(auto, using(crate::proofs::Verdicts::verdicts))]
pub fn test_code(tree: &[u8], at: usize, policy: [u8; 32]) -> Result<(), CodeFault>
    ensures { result ≡ test_of (policy_allows policy) (read_at tree.now at) }
{
    let tally = needs_at(tree, at)?;
    if !tally.honest {
        return Err(CodeFault::NotHonest);
    }
    if !fits_all(tally.needs, policy) {
        return Err(CodeFault::NotFitting);
    }
    Ok(())
}

// The slip whose `n` entries stand at `at`, as `head_at` tells them: is no count of it above the policy's? Nothing
// behind it is read.
pub fn test_slip(tree: &[u8], at: usize, n: u8, policy: [u8; 32]) -> bool
    ensures { result ≡ slip_test tree.now at n policy }
{
    fits_all(slip_counts(tree, at, n), policy)
}
