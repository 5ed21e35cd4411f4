// What is looked at in a call: all that it tells, and the whole net before and after it.
use crate::call::Call;
use crate::scene::Row;
use crate::told::{Seen, Told};
use diverter::diverter_set_up;
use rules::Net;
use std::fmt;

#[derive(Clone, Copy, PartialEq, Eq)]
pub enum Verdict {
    Ok,
    // It should have told this.
    Not(Seen),
    // The net is not what it should be afterwards.
    Net,
}

// A refusal leaves the net as found, a set-up makes the same net of any record, any other call that is done changes it.
fn net_is_right(row: Row, before: &Net, after: &Net) -> bool {
    match (row.1, row.0) {
        (Told::Refused(_), _) => after == before,
        (Told::Fresh, Call::SetUp(given)) => {
            let mut fresh = Net::default();
            diverter_set_up(&mut fresh, given.bytes().as_slice());
            *after == fresh
        }
        _ => after != before,
    }
}

// Makes a row's call, and says what it told and what that is worth.
pub(crate) fn check(row: Row, net: &mut Net) -> (Seen, Verdict) {
    let before = *net;
    let seen = Seen::from(row.0.make(net));
    let wanted = Seen::from(row.1);
    if seen != wanted {
        (seen, Verdict::Not(wanted))
    } else if net_is_right(row, &before, net) {
        (seen, Verdict::Ok)
    } else {
        (seen, Verdict::Net)
    }
}

impl fmt::Display for Verdict {
    fn fmt<W: fmt::Write>(&self, f: &mut fmt::Formatter<W>) -> fmt::Result {
        match self {
            Verdict::Ok => f.write_str("ok"),
            Verdict::Not(wanted) => write!(f, "WRONG, not {wanted}"),
            Verdict::Net => f.write_str("WRONG, the net is not as it should be"),
        }
    }
}
