// What a call answers: `Ok` with its fields where it is done, or a refusal, one for each row of the table.
ghost use Rattle.std.specs.Prelude.{◌≡◌};
ghost use Rattle.rules.specs.Rows.{refusal_number, number_of, of_envelope, of_reading, of_code};

use crate::net::Net;
use policy::CodeFault;
use program::{Action, Controller, EnvelopeFault, Fault};

// The name that a done step has used: an action, or the controller that its thread went to.
#[derive(Clone, Copy, Debug, PartialEq, Eq)]
pub enum Name {
    Acted(Action),
    Went(Controller),
}

impl From<Name> for u16 {
    ghost from_gives = { λ name n. n ≡ number_of name };

    fn from(name: Name) -> u16 {
        match name {
            Name::Acted(action) => u16::from(action.0),
            Name::Went(controller) => u16::from(controller.0),
        }
    }
}

// Pass of the acting stay, its controller, the name used, the new pass, each present or absent; and the number of
// passes passed over.
#[derive(Clone, Copy, Debug, Default, PartialEq, Eq)]
pub struct Fields {
    pub pass: Option<u16>,
    pub controller: Option<Controller>,
    pub name: Option<Name>,
    pub fresh: Option<u16>,
    pub over: u8,
}

// The rows of the table, with the document's numbers: 1 to 16 in their order, and 99.
#[derive(Clone, Copy, Debug, PartialEq, Eq)]
pub enum Refusal {
    Fewer = 1,
    Length = 2,
    Version = 3,
    Cut = 4,
    Bad = 5,
    LeftOver = 6,
    NotFitting = 7,
    NotHonest = 8,
    NoSlot = 9,
    NoPlace = 10,
    NoThread = 11,
    SlipNotFitting = 12,
    AlreadyHere = 13,
    BadSetUp = 14,
    NotCoherent = 15,
    NoController = 16,
    NotSound = 99,
}

impl From<Refusal> for u8 {
    ghost from_gives = { λ r n. n ≡ refusal_number r };

    fn from(r: Refusal) -> u8 {
        r as u8
    }
}

impl From<EnvelopeFault> for Refusal {
    ghost from_gives = { λ f r. r ≡ of_envelope f };

    fn from(f: EnvelopeFault) -> Refusal {
        match f {
            EnvelopeFault::Fewer => Refusal::Fewer,
            EnvelopeFault::Length => Refusal::Length,
            EnvelopeFault::Version => Refusal::Version,
        }
    }
}

impl From<Fault> for Refusal {
    ghost from_gives = { λ f r. r ≡ of_reading f };

    fn from(f: Fault) -> Refusal {
        match f {
            Fault::Cut => Refusal::Cut,
            Fault::Bad(_) => Refusal::Bad,
        }
    }
}

// Code is tested only where a whole program was read before, so `Unread` would mean a record that is not sound.
impl From<CodeFault> for Refusal {
    ghost from_gives = { λ f r. r ≡ of_code f };

    fn from(f: CodeFault) -> Refusal {
        match f {
            CodeFault::Unread => Refusal::NotSound,
            CodeFault::NotHonest => Refusal::NotHonest,
            CodeFault::NotFitting => Refusal::NotFitting,
        }
    }
}

pub type Reply = Result<Fields, Refusal>;

#[derive(Clone, Copy, Debug, PartialEq, Eq)]
pub struct Outcome {
    pub reply: Reply,
    pub net: Net,
}
