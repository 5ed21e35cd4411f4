// Entry of code at a controller, at a launch and at a departure: what is looked at, and what is refused.
ghost use Rattle.std.specs.Prelude.{◌≡◌};
ghost use Rattle.net.specs.Checks.{launch_look, entry_look, entered};

use crate::controllers::trust_of;
use policy::{test_code, test_slip};
use program::Controller;
use rules::Refusal;

// What a controller looks at. An enum and no closure: the rules have these three too, and launch and step share what is done with each.
#[derive(Clone, Copy, Debug, PartialEq, Eq)]
pub enum Look {
    BytesOnly,
    TheSlip,
    TheCode,
}

// A trustworthy controller has launched code tested; any other only has its bytes read. This and `at_entry` are two
// sentences of the rules: one function for both would take each sentence as its arguments.
pub fn at_launch(trust: &[u8], c: Controller) -> Look
    ensures { result ≡ launch_look trust.now c }
{
    if trust_of(trust, c, c) == 1 {
        Look::TheCode
    } else {
        Look::BytesOnly
    }
}

// A target that trusts the present controller compares the slip alone: it is the target's trust that decides.
pub fn at_entry(trust: &[u8], target: Controller, present: Controller) -> Look
    ensures { result ≡ entry_look trust.now target present }
{
    if trust_of(trust, target, present) == 1 {
        Look::TheSlip
    } else {
        Look::TheCode
    }
}

// The code at `code`, and the `entries` slip entries at `slip`, against a policy's 32 counts.
pub fn enter(
    look: Look,
    policy: [u8; 32],
    tree: &[u8],
    slip: usize,
    entries: u8,
    code: usize,
) -> Result<(), Refusal>
    ensures { result ≡ entered look policy tree.now slip entries code }
{
    match look {
        Look::BytesOnly => Ok(()),
        Look::TheSlip => {
            if test_slip(tree, slip, entries, policy) {
                Ok(())
            } else {
                Err(Refusal::SlipNotFitting)
            }
        }
        Look::TheCode => Ok(test_code(tree, code, policy)?),
    }
}
