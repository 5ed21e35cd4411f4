// 99: a good record with one clause of soundness broken at a time, and the nearest record that is sound.
use crate::call::Call::{Launch, Step};
use crate::given::Given::{Bytes, Tree};
use crate::given::Hall;
use crate::halls::STRANGERS;
use crate::scene::Change::{Controllers, Place, Thread, Trust};
use crate::scene::{EMPTY, Row, Scene, Slot};
use crate::told::Told::{Launched, Refused, Stepped};

// A good record: two controllers, and one thread.
const GOOD: Scene = Scene {
    hall: Some(Hall(2, STRANGERS, &[])),
    before: &[(1, Launch(16, Tree(&[1, 5, 0])))],
    rows: &[
        Row(Launch(16, Tree(&[0])), Launched(16, 1, 0)),
        Row(Step(0), Stepped(0, 16, Some(5))),
    ],
    ..EMPTY
};

const BROKEN: Scene = Scene {
    rows: &[
        Row(Launch(16, Tree(&[0])), Refused(99)),
        Row(Step(0), Refused(99)),
    ],
    ..GOOD
};

pub static TABLES: &[Scene] = &[
    Scene {
        what: "a good record",
        ..GOOD
    },
    Scene {
        what: "n 16",
        changes: &[Controllers(16)],
        ..GOOD
    },
    Scene {
        what: "n 17",
        changes: &[Controllers(17)],
        ..BROKEN
    },
    Scene {
        what: "n 17, 99 before all else",
        changes: &[Controllers(17)],
        rows: &[
            Row(Launch(0, Bytes(&[])), Refused(99)),
            Row(Step(64), Refused(99)),
        ],
        ..BROKEN
    },
    Scene {
        what: "the first trust byte 2",
        changes: &[Trust(0, 2)],
        ..GOOD
    },
    Scene {
        what: "the first trust byte 3",
        changes: &[Trust(0, 3)],
        ..BROKEN
    },
    Scene {
        what: "the last trust byte, beyond n, 2",
        changes: &[Trust(255, 2)],
        ..GOOD
    },
    Scene {
        what: "the last trust byte, beyond n, 3",
        changes: &[Trust(255, 3)],
        ..BROKEN
    },
];

pub static SLOTS: &[Scene] = &[
    Scene {
        what: "a thread with place 7",
        changes: &[Thread(Slot(1, 7, 0, 16, 9))],
        ..GOOD
    },
    Scene {
        what: "a thread with place 8",
        changes: &[Thread(Slot(1, 8, 0, 16, 9))],
        ..BROKEN
    },
    Scene {
        what: "a thread with place 8 in the last slot",
        changes: &[Thread(Slot(63, 8, 0, 16, 9))],
        ..BROKEN
    },
    Scene {
        what: "a thread at 17, the last controller",
        changes: &[Thread(Slot(1, 0, 0, 17, 9))],
        ..GOOD
    },
    Scene {
        what: "a thread at 18, no controller of the net",
        changes: &[Thread(Slot(1, 0, 0, 18, 9))],
        ..BROKEN
    },
    Scene {
        what: "a thread at 15, no controller",
        changes: &[Thread(Slot(1, 0, 0, 15, 9))],
        ..BROKEN
    },
    Scene {
        what: "a free slot with a place",
        changes: &[Thread(Slot(63, 1, 0, 0, 0))],
        ..BROKEN
    },
    Scene {
        what: "a free slot with a position",
        changes: &[Thread(Slot(63, 0, 1, 0, 0))],
        ..BROKEN
    },
    Scene {
        what: "a free slot with a pass",
        changes: &[Thread(Slot(63, 0, 0, 0, 1))],
        ..BROKEN
    },
];

pub static POSITIONS: &[Scene] = &[
    Scene {
        what: "a thread at position 383, an end",
        changes: &[Thread(Slot(1, 0, 383, 16, 9))],
        ..GOOD
    },
    Scene {
        what: "a thread at position 384, beyond its place",
        changes: &[Thread(Slot(1, 0, 384, 16, 9))],
        ..BROKEN
    },
    Scene {
        what: "a thread at position 383, a repeat of nothing more",
        changes: &[Place(383, 3), Thread(Slot(1, 0, 383, 16, 9))],
        ..BROKEN
    },
    Scene {
        what: "a thread at position 381, a split of two ends",
        changes: &[Place(381, 2), Thread(Slot(1, 0, 381, 16, 9))],
        ..GOOD
    },
    Scene {
        what: "a thread at position 382, a split of one end and nothing more",
        changes: &[Place(382, 2), Thread(Slot(1, 0, 382, 16, 9))],
        ..BROKEN
    },
    Scene {
        what: "a thread at position 2, the end behind an act",
        changes: &[Thread(Slot(1, 0, 2, 16, 9))],
        ..GOOD
    },
    Scene {
        what: "a thread at position 1, no node but an act's action",
        changes: &[Thread(Slot(1, 0, 1, 16, 9))],
        ..BROKEN
    },
];
