// The step of a slot: its turn is found out, and then done.
ghost use Rattle.std.specs.Prelude.{◌≡◌};
ghost use Rattle.rules.specs.Nets as nets;
ghost use Rattle.rules.specs.Calls as rules;
ghost use Rattle.net.specs.Turns.{arrived, done_by, shows};

use crate::slots::{put, thread_at};
use crate::turn::{Turn, turn_of};
use program::Controller;
use rules::{Fields, Name, Net, Outcome, Thread};

// The thread at another position of its tree.
fn goes(t: Thread, position: u16) -> Thread
    ensures { result ≡ rules.goes t position }
{
    Thread { position, ..t }
}

// The thread at its target, at the carried program, with a new pass.
fn moved(t: Thread, target: Controller, carried: u16, pass: u16) -> Thread
    ensures { result ≡ arrived t target carried pass }
{
    Thread {
        position: carried,
        controller: target,
        pass,
        ..t
    }
}

// The acting stay's pass and controller, the name used, the new pass, and the number passed over.
fn shows(t: Thread, name: Option<Name>, fresh: Option<u16>, over: u8) -> Fields
    ensures { result ≡ shows t name fresh over }
{
    Fields {
        pass: Some(t.pass),
        controller: Some(t.controller),
        name,
        fresh,
        over,
    }
}

// The turn of a slot is done.
fn done(net: Net, slot: usize, turn: Turn) -> Outcome
    ensures { result ≡ done_by net slot (nets.thread_at net slot) turn }
{
    let mut after = net;
    let t = thread_at(&net.threads, slot);
    let fields = match turn {
        Turn::Ends => {
            put(&mut after.threads, slot, Thread::default());
            shows(t, None, None, 0)
        }
        Turn::Acts(action, next) => {
            put(&mut after.threads, slot, goes(t, next));
            shows(t, Some(Name::Acted(action)), None, 0)
        }
        Turn::Splits(free, first, second) => {
            put(&mut after.threads, slot, goes(t, first));
            put(&mut after.threads, free, goes(t, second));
            shows(t, None, None, 0)
        }
        Turn::Repeats(free, body) => {
            put(&mut after.threads, free, goes(t, body));
            shows(t, None, None, 0)
        }
        Turn::Departs(target, carried) => {
            let issued = net.counter.issue(net.threads);
            put(
                &mut after.threads,
                slot,
                moved(t, target, carried, issued.pass),
            );
            after.counter = issued.counter;
            shows(t, Some(Name::Went(target)), Some(issued.pass), issued.over)
        }
    };
    Outcome {
        reply: Ok(fields),
        net: after,
    }
}

#[tactic(auto, using(crate::proofs::Turns::turns))]
pub fn step(net: Net, slot: usize) -> Outcome
    ensures { result ≡ rules.called net (rules.step slot) }
{
    match turn_of(&net, slot) {
        Ok(turn) => done(net, slot, turn),
        Err(why) => Outcome {
            reply: Err(why),
            net,
        },
    }
}
