// The refusals of a set-up, on both sides of their limits.
use crate::call::Call::{Launch, SetUp};
use crate::given::Given::{Blank, Bytes, Tables, Tree};
use crate::given::Hall;
use crate::halls::ALONE;
use crate::scene::Change::{Controllers, Thread, Trust};
use crate::scene::{EMPTY, Row, Scene, Slot};
use crate::told::Told::{Fresh, Refused};

// A net that runs, so that a change would show.
const RUNNING: Scene = Scene {
    hall: Some(Hall(1, ALONE, &[])),
    before: &[(1, Launch(16, Tree(&[3, 0])))],
    ..EMPTY
};

pub static ENVELOPES: &[Scene] = &[
    Scene {
        what: "too few bytes",
        rows: &[
            Row(SetUp(Bytes(&[])), Refused(1)),
            Row(SetUp(Bytes(&[0])), Refused(1)),
            Row(SetUp(Bytes(&[0, 1])), Refused(2)),
            Row(SetUp(Blank(35, 1, 1, 36)), Refused(1)),
            Row(SetUp(Blank(35, 1, 1, 37)), Fresh),
        ],
        ..RUNNING
    },
    Scene {
        what: "a length outside 2..770, or bytes beyond it",
        rows: &[
            Row(SetUp(Bytes(&[0, 1, 1])), Refused(2)),
            Row(SetUp(Bytes(&[0, 2, 1, 1])), Refused(14)),
            Row(SetUp(Blank(771, 1, 16, 773)), Refused(2)),
            Row(SetUp(Blank(35, 1, 1, 38)), Refused(2)),
            Row(SetUp(Blank(35, 1, 1, 37)), Fresh),
            Row(SetUp(Blank(770, 1, 16, 772)), Fresh),
        ],
        ..RUNNING
    },
    Scene {
        what: "a version other than 1",
        rows: &[
            Row(SetUp(Blank(35, 0, 1, 37)), Refused(3)),
            Row(SetUp(Blank(35, 2, 1, 37)), Refused(3)),
            Row(SetUp(Blank(35, 1, 1, 37)), Fresh),
        ],
        ..RUNNING
    },
];

pub static TABLES: &[Scene] = &[
    Scene {
        what: "n outside 1..16",
        rows: &[
            Row(SetUp(Blank(2, 1, 0, 4)), Refused(14)),
            Row(SetUp(Blank(770, 1, 17, 772)), Refused(14)),
            Row(SetUp(Blank(35, 1, 1, 37)), Fresh),
            Row(SetUp(Blank(770, 1, 16, 772)), Fresh),
        ],
        ..RUNNING
    },
    Scene {
        what: "a length that does not fit n",
        rows: &[
            Row(SetUp(Blank(34, 1, 1, 36)), Refused(14)),
            Row(SetUp(Blank(36, 1, 1, 38)), Refused(14)),
            Row(SetUp(Blank(35, 1, 1, 37)), Fresh),
            Row(SetUp(Blank(69, 1, 2, 71)), Refused(14)),
            Row(SetUp(Blank(71, 1, 2, 73)), Refused(14)),
            Row(SetUp(Blank(70, 1, 2, 72)), Fresh),
        ],
        ..RUNNING
    },
    Scene {
        what: "a trust byte above 2",
        rows: &[
            Row(SetUp(Tables(Hall(1, &[3], &[]))), Refused(14)),
            Row(SetUp(Tables(Hall(1, &[2], &[]))), Fresh),
            Row(SetUp(Tables(Hall(2, &[0, 0, 0, 3], &[]))), Refused(14)),
            Row(SetUp(Tables(Hall(2, &[0, 0, 0, 2], &[]))), Fresh),
        ],
        ..RUNNING
    },
    Scene {
        what: "a trust byte above 2 before coherence",
        rows: &[Row(SetUp(Tables(Hall(2, &[1, 1, 3, 0], &[]))), Refused(14))],
        ..RUNNING
    },
    Scene {
        what: "coherence",
        rows: &[
            Row(SetUp(Tables(Hall(2, &[1, 1, 0, 2], &[]))), Refused(15)),
            Row(SetUp(Tables(Hall(2, &[1, 2, 0, 0], &[]))), Refused(15)),
            Row(SetUp(Tables(Hall(2, &[0, 0, 1, 1], &[]))), Refused(15)),
            Row(SetUp(Tables(Hall(2, &[1, 2, 0, 2], &[]))), Fresh),
            Row(SetUp(Tables(Hall(2, &[2, 1, 0, 0], &[]))), Fresh),
            Row(SetUp(Tables(Hall(2, &[1, 0, 1, 1], &[]))), Fresh),
        ],
        ..RUNNING
    },
    Scene {
        what: "a set-up on a record that is not sound",
        changes: &[
            Controllers(17),
            Trust(255, 3),
            Thread(Slot(63, 8, 384, 15, 9)),
        ],
        rows: &[
            Row(SetUp(Bytes(&[])), Refused(1)),
            Row(SetUp(Blank(35, 1, 1, 37)), Fresh),
        ],
        ..RUNNING
    },
];
