// A reply as numbers, for callers in C.
ghost use Rattle.std.specs.Prelude.{◌≡◌};
ghost use Rattle.diverter.specs.Answers.{shown_pass, answer_for, answer_of};

use rules::{Fields, Reply};

// A field of a reply: present is 1 where it is there; where it is absent both are 0. C reads it, hence a mark and no Option.
#[repr(C)]
#[derive(Clone, Copy)]
pub struct Shown {
    pub present: u8,
    pub value: u16,
}

// The document's number, the number of passes passed over, and the fields of the listing.
#[repr(C)]
#[derive(Clone, Copy)]
pub struct Answer {
    pub number: u8,
    pub over: u8,
    pub pass: Shown,
    pub controller: Shown,
    pub name: Shown,
    pub fresh: Shown,
}

impl From<Option<u16>> for Shown {
    ghost from_gives = { λ o r. r ≡ shown_pass o };

    fn from(field: Option<u16>) -> Shown {
        match field {
            Some(value) => Shown { present: 1, value },
            None => Shown {
                present: 0,
                value: 0,
            },
        }
    }
}

// Done: the fields, under 0.
impl From<Fields> for Answer {
    ghost from_gives = { λ f r. r ≡ answer_for 0 f };

    fn from(fields: Fields) -> Answer {
        Answer {
            number: 0,
            over: fields.over,
            pass: Shown::from(fields.pass),
            controller: Shown::from(fields.controller.map(|c| u16::from(c.0))),
            name: Shown::from(fields.name.map(u16::from)),
            fresh: Shown::from(fields.fresh),
        }
    }
}

// Refused: the document's number, and no field.
impl From<Reply> for Answer {
    ghost from_gives = { λ reply r. r ≡ answer_of reply };

    fn from(reply: Reply) -> Answer {
        match reply {
            Ok(fields) => Answer::from(fields),
            Err(why) => Answer {
                number: u8::from(why),
                ..Answer::from(Fields::default())
            },
        }
    }
}
