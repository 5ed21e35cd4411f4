// The commands that follow a set-up.
use crate::input::{Envelope, LONGEST_PROGRAM, Room, read_byte, read_envelope};
use diverter::{Answer, diverter_launch, diverter_step};
use rules::Net;
use std::io;
use std::io::Read;

// The bytes that commands begin with.
const LAUNCH: u8 = 1;

const STEP: u8 = 2;

// A launch of what came at a controller, or a step of a slot.
#[derive(Clone, Copy)]
pub enum Command<'a> {
    Launch(u8, Envelope<'a>),
    Step(u8),
}

impl Command<'_> {
    pub(crate) fn call(self, net: &mut Net) -> Answer {
        match self {
            Command::Launch(at, envelope) => diverter_launch(net, at, envelope.bytes()),
            Command::Step(slot) => diverter_step(net, usize::from(slot)),
        }
    }

    // Behind a length that is out of range nothing says where the next command begins.
    pub(crate) fn is_last(self) -> bool {
        matches!(self, Command::Launch(_, Envelope::OutOfRange(_)))
    }
}

// The next command; none at the end of the input, at a command that is cut and at any other first byte.
pub(crate) fn read_command<'a, R: Read>(
    input: &mut R,
    room: &'a mut Room,
) -> io::Result<Option<Command<'a>>> {
    match read_byte(input)? {
        Some(LAUNCH) => read_launch(input, room),
        Some(STEP) => read_step(input),
        _ => Ok(None),
    }
}

fn read_launch<'a, R: Read>(input: &mut R, room: &'a mut Room) -> io::Result<Option<Command<'a>>> {
    let Some(at) = read_byte(input)? else {
        return Ok(None);
    };
    match read_envelope(input, room, LONGEST_PROGRAM)? {
        Envelope::Cut(_) => Ok(None),
        envelope => Ok(Some(Command::Launch(at, envelope))),
    }
}

fn read_step<'a, R: Read>(input: &mut R) -> io::Result<Option<Command<'a>>> {
    let Some(slot) = read_byte(input)? else {
        return Ok(None);
    };
    Ok(Some(Command::Step(slot)))
}
