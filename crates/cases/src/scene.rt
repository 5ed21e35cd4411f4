// A scene: how a net comes to be, what is called on it, and what that should tell.
use crate::call::Call;
use crate::given::{Given, Hall};
use crate::told::Told;
use program::Controller;
use rules::{Net, Thread};
use std::fmt;

// A slot's thread: slot, place, position, controller, pass.
#[derive(Clone, Copy, PartialEq, Eq)]
pub struct Slot(pub usize, pub u8, pub u16, pub u8, pub u16);

// What no call does to a record, and a caller may.
#[derive(Clone, Copy)]
pub enum Change {
    Controllers(u8),
    // A trust byte, by its index.
    Trust(usize, u8),
    // A byte of the places, by its index.
    Place(usize, u8),
    Thread(Slot),
    // Each slot's own number is its thread's pass.
    Passes,
    // The last pass issued.
    Last(u16),
}

// A call, and what it should tell.
#[derive(Clone, Copy)]
pub struct Row(pub Call, pub Told);

// The hall is set up, the calls before are made, each so often, and all done; the record is changed. Then each row's
// call is made, on the net that the one before it left, and at last the slots are looked at.
// The tables of scenes are statics, since a proof would unfold constants.
#[derive(Clone, Copy)]
pub struct Scene {
    pub what: &'static str,
    pub hall: Option<Hall>,
    pub before: &'static [(usize, Call)],
    pub changes: &'static [Change],
    pub rows: &'static [Row],
    pub after: &'static [Slot],
}

// A scene in which nothing happens, for what a scene leaves out.
pub const EMPTY: Scene = Scene {
    what: "",
    hall: None,
    before: &[],
    changes: &[],
    rows: &[],
    after: &[],
};

impl Slot {
    // A slot as a net has it; beyond the last there is none.
    pub(crate) fn of(net: &Net, slot: usize) -> Option<Slot> {
        let t = net.threads.get(slot)?;
        Some(Slot(slot, t.place, t.position, t.controller.0, t.pass))
    }

    fn thread(self) -> Thread {
        Thread {
            place: self.1,
            position: self.2,
            controller: Controller(self.3),
            pass: self.4,
        }
    }
}

impl fmt::Display for Slot {
    fn fmt<W: fmt::Write>(&self, f: &mut fmt::Formatter<W>) -> fmt::Result {
        let Slot(slot, place, position, controller, pass) = self;
        write!(
            f,
            "slot {slot} has place {place} position {position} controller {controller} pass {pass}"
        )
    }
}

impl Change {
    fn make(self, net: &mut Net) {
        match self {
            Change::Controllers(n) => net.n = n,
            Change::Trust(at, byte) => put(&mut net.trust, at, byte),
            Change::Place(at, byte) => put(&mut net.places, at, byte),
            Change::Thread(slot) => put(&mut net.threads, slot.0, slot.thread()),
            Change::Passes => number_passes(&mut net.threads),
            Change::Last(pass) => net.counter.last = pass,
        }
    }
}

fn put<T: Copy>(all: &mut [T], at: usize, value: T) {
    if let Some(old) = all.get_mut(at) {
        *old = value;
    }
}

fn number_passes(threads: &mut [Thread; 64]) {
    let mut pass: u16 = 0;
    for thread in threads {
        thread.pass = pass;
        pass = pass.wrapping_add(1);
    }
}

// Is a call done, so often?
fn all_done(net: &mut Net, times: usize, call: Call) -> bool {
    for _ in 0..times {
        if call.make(net).number != 0 {
            return false;
        }
    }
    true
}

impl Scene {
    // The net that the rows begin with, if it comes to be.
    pub(crate) fn prepared(&self) -> Option<Net> {
        let mut net = Net::default();
        if let Some(hall) = self.hall
            && !all_done(&mut net, 1, Call::SetUp(Given::Tables(hall)))
        {
            return None;
        }
        for (times, call) in self.before {
            if !all_done(&mut net, *times, *call) {
                return None;
            }
        }
        for change in self.changes {
            change.make(&mut net);
        }
        Some(net)
    }
}
