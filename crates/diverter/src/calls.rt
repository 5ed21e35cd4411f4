// The calls that take the net by `&mut`, three as C has three, by `diverter_c`. Any bytes, any controller and slot number, any record may
// be given.
ghost use Rattle.std.specs.Prelude.{◌≡◌};
ghost use Rattle.program.specs.Names.{controller};
ghost use Rattle.diverter.specs.Answers.{told_of, set_up_of, launch_of, step_of};

use crate::answer::Answer;
use crate::told::Told;
use net::{launch, set_up, step};
use program::Controller;
use rules::Net;

pub fn diverter_set_up(net: &mut Net, bytes: &[u8]) -> Answer
    ensures { (result ≡ (told_of (set_up_of net.old bytes.now)).answer) × (net.new ≡ (told_of (set_up_of net.old bytes.now)).net) }
{
    let told = Told::from(set_up(*net, bytes));
    *net = told.net;
    told.answer
}

pub fn diverter_launch(net: &mut Net, at: u8, bytes: &[u8]) -> Answer
    ensures { (result ≡ (told_of (launch_of net.old (controller at) bytes.now)).answer) × (net.new ≡ (told_of (launch_of net.old (controller at) bytes.now)).net) }
{
    let told = Told::from(launch(*net, Controller(at), bytes));
    *net = told.net;
    told.answer
}

pub fn diverter_step(net: &mut Net, slot: usize) -> Answer
    ensures { (result ≡ (told_of (step_of net.old slot)).answer) × (net.new ≡ (told_of (step_of net.old slot)).net) }
{
    let told = Told::from(step(*net, slot));
    *net = told.net;
    told.answer
}
