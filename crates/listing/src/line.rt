// A line of the listing: fields parted by one blank, `-` for none.
use diverter::{Answer, Shown};
use std::fmt;

// A call's number, and what the call answered.
#[derive(Clone, Copy)]
pub struct Line {
    pub no: u64,
    pub answer: Answer,
}

impl fmt::Display for Line {
    fn fmt<W: fmt::Write>(&self, f: &mut fmt::Formatter<W>) -> fmt::Result {
        let answer = self.answer;
        write!(
            f,
            "{} {} {} {} {} {}",
            self.no,
            answer.number,
            Field(answer.pass),
            Field(answer.controller),
            Field(answer.name),
            Field(answer.fresh),
        )
    }
}

#[derive(Clone, Copy)]
struct Field(Shown);

impl fmt::Display for Field {
    fn fmt<W: fmt::Write>(&self, f: &mut fmt::Formatter<W>) -> fmt::Result {
        match self.0.present {
            0 => f.write_str("-"),
            _ => write!(f, "{}", self.0.value),
        }
    }
}
