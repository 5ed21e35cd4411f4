// What a call told, and what it should have told.
use diverter::{Answer, Shown};
use std::fmt;

// What a call should tell. A refusal has its number and nothing else.
#[derive(Clone, Copy)]
pub enum Told {
    Refused(u8),
    // A set-up is done.
    Fresh,
    // Controller, new pass, number passed over.
    Launched(u16, u16, u8),
    // Pass, controller, and the action used, if one is.
    Stepped(u16, u16, Option<u16>),
    // Pass, controller, target, new pass, number passed over.
    Departed(u16, u16, u16, u16, u8),
}

// A field as it comes: the mark, and the value.
#[derive(Clone, Copy, PartialEq, Eq)]
struct Field(u8, u16);

// All of an answer: the number, the listing's four fields, and the number passed over.
#[derive(Clone, Copy, PartialEq, Eq)]
pub struct Seen {
    number: u8,
    fields: [Field; 4],
    over: u8,
}

impl From<Shown> for Field {
    fn from(shown: Shown) -> Field {
        Field(shown.present, shown.value)
    }
}

// What is absent is 0, and so is its mark.
impl From<Option<u16>> for Field {
    fn from(field: Option<u16>) -> Field {
        field.map_or(Field(0, 0), |value| Field(1, value))
    }
}

impl From<Answer> for Seen {
    fn from(answer: Answer) -> Seen {
        Seen {
            number: answer.number,
            fields: [
                Field::from(answer.pass),
                Field::from(answer.controller),
                Field::from(answer.name),
                Field::from(answer.fresh),
            ],
            over: answer.over,
        }
    }
}

fn wanted(number: u8, fields: [Option<u16>; 4], over: u8) -> Seen {
    Seen {
        number,
        fields: fields.map(Field::from),
        over,
    }
}

impl From<Told> for Seen {
    fn from(told: Told) -> Seen {
        match told {
            Told::Refused(number) => wanted(number, [None; 4], 0),
            Told::Fresh => wanted(0, [None; 4], 0),
            Told::Launched(at, fresh, over) => wanted(0, [None, Some(at), None, Some(fresh)], over),
            Told::Stepped(pass, at, name) => wanted(0, [Some(pass), Some(at), name, None], 0),
            Told::Departed(pass, at, target, fresh, over) => {
                wanted(0, [Some(pass), Some(at), Some(target), Some(fresh)], over)
            }
        }
    }
}

// `-` for none, and what is marked as none without being 0 is shown.
impl fmt::Display for Field {
    fn fmt<W: fmt::Write>(&self, f: &mut fmt::Formatter<W>) -> fmt::Result {
        match self {
            Field(0, 0) => f.write_str("-"),
            Field(1, value) => write!(f, "{value}"),
            Field(mark, value) => write!(f, "{value}({mark})"),
        }
    }
}

impl fmt::Display for Seen {
    fn fmt<W: fmt::Write>(&self, f: &mut fmt::Formatter<W>) -> fmt::Result {
        let [pass, controller, name, fresh] = self.fields;
        write!(
            f,
            "{} {pass} {controller} {name} {fresh} {}",
            self.number, self.over
        )
    }
}
