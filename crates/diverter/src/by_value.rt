// The calls for a caller that has the net by value: it is lent for the call, and handed back with the answer.
ghost use Rattle.std.specs.Prelude.{◌≡◌};
ghost use Rattle.program.specs.Names.{controller};
ghost use Rattle.diverter.specs.Answers.{told_of, set_up_of, launch_of, step_of};

use crate::calls::{diverter_launch, diverter_set_up, diverter_step};
use crate::told::{Told, via};
use rules::Net;

pub fn set_up_via(net: Net, bytes: &[u8]) -> Told
    ensures { result ≡ told_of (set_up_of net bytes.now) }
{
    via(net, |held| diverter_set_up(held, bytes))
}

pub fn launch_via(net: Net, at: u8, bytes: &[u8]) -> Told
    ensures { result ≡ told_of (launch_of net (controller at) bytes.now) }
{
    via(net, |held| diverter_launch(held, at, bytes))
}

pub fn step_via(net: Net, slot: usize) -> Told
    ensures { result ≡ told_of (step_of net slot) }
{
    via(net, |held| diverter_step(held, slot))
}
