// What a call by `&mut` leaves: the reply as numbers, beside the net.
ghost use Rattle.std.specs.Prelude.{◌≡◌};
ghost use Rattle.std.specs.Fn.{FnOnceReturnsAtMut};
ghost use Rattle.diverter.specs.Answers.{told_of};

use crate::answer::Answer;
use rules::{Net, Outcome};

#[derive(Clone, Copy)]
pub struct Told {
    pub answer: Answer,
    pub net: Net,
}

impl From<Outcome> for Told {
    ghost from_gives = { λ o r. r ≡ told_of o };

    fn from(out: Outcome) -> Told {
        Told {
            answer: Answer::from(out.reply),
            net: out.net,
        }
    }
}

// The net is lent for one call, and handed back with the answer.
pub fn via<F: FnOnce(&mut Net) -> Answer>(net: Net, call: F) -> Told
    requires { F.IsAlwaysCallable call }
    ensures { FnOnceReturnsAtMut F.FnOnce call net result.answer result.net }
{
    let mut held = net;
    let answer = call(&mut held);
    Told { answer, net: held }
}
