// What a controller links: the calls of `diverter` under C's names, with the same clauses.
#![tactic(auto)]

ghost use Rattle.std.specs.Prelude.{◌≡◌};
ghost use Rattle.program.specs.Names.{controller};
ghost use Rattle.diverter.specs.Answers.{told_of, set_up_of, launch_of, step_of};

use diverter::Answer;
use rules::Net;

#[unsafe(no_mangle)]
pub extern "C" fn diverter_set_up(net: &mut Net, bytes: &[u8]) -> Answer
    ensures { (result ≡ (told_of (set_up_of net.old bytes.now)).answer) × (net.new ≡ (told_of (set_up_of net.old bytes.now)).net) }
{
    diverter::diverter_set_up(net, bytes)
}

#[unsafe(no_mangle)]
pub extern "C" fn diverter_launch(net: &mut Net, at: u8, bytes: &[u8]) -> Answer
    ensures { (result ≡ (told_of (launch_of net.old (controller at) bytes.now)).answer) × (net.new ≡ (told_of (launch_of net.old (controller at) bytes.now)).net) }
{
    diverter::diverter_launch(net, at, bytes)
}

#[unsafe(no_mangle)]
pub extern "C" fn diverter_step(net: &mut Net, slot: usize) -> Answer
    ensures { (result ≡ (told_of (step_of net.old slot)).answer) × (net.new ≡ (told_of (step_of net.old slot)).net) }
{
    diverter::diverter_step(net, slot)
}
