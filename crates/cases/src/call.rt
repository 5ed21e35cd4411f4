// A call as the tables have it, made through the diverter's calls by `&mut`.
use crate::given::{Given, Hex};
use diverter::{Answer, diverter_launch, diverter_set_up, diverter_step};
use program::read_program;
use rules::{Net, Thread};
use std::fmt;

#[derive(Clone, Copy)]
pub enum Call {
    SetUp(Given),
    // At this controller.
    Launch(u8, Given),
    // Of this slot.
    Step(usize),
}

impl Call {
    pub(crate) fn make(self, net: &mut Net) -> Answer {
        match self {
            Call::SetUp(given) => diverter_set_up(net, given.bytes().as_slice()),
            Call::Launch(at, given) => diverter_launch(net, at, given.bytes().as_slice()),
            Call::Step(slot) => diverter_step(net, slot),
        }
    }
}

// A call, and the net that it found.
#[derive(Clone, Copy)]
pub struct Made<'a> {
    pub call: Call,
    pub net: &'a Net,
}

// The bytes of the program that a thread is at.
fn program_of(places: &[u8; 3072], thread: Thread) -> Option<&[u8]> {
    if thread.is_free() {
        return None;
    }
    let place = 384 * usize::from(thread.place);
    let tree = places.get(place + usize::from(thread.position)..place + 384)?;
    tree.get(..read_program(tree, 0).ok()?)
}

impl fmt::Display for Made<'_> {
    fn fmt<W: fmt::Write>(&self, f: &mut fmt::Formatter<W>) -> fmt::Result {
        match self.call {
            Call::SetUp(given) => write!(f, "set-up {}", Hex(given.bytes().as_slice())),
            Call::Launch(at, given) => {
                write!(f, "launch {} at {at}", Hex(given.bytes().as_slice()))
            }
            Call::Step(slot) => {
                let thread = self.net.threads.get(slot).copied().unwrap_or_default();
                match program_of(&self.net.places, thread) {
                    Some(program) => write!(f, "step {slot} on {}", Hex(program)),
                    None => write!(f, "step {slot}"),
                }
            }
        }
    }
}
