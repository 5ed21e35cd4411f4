// What a step does at each node, and its refusals on both sides of their limits; those of records are in `records`.
use crate::call::Call::{Launch, Step};
use crate::given::Given::Tree;
use crate::given::{Allows, Hall};
use crate::halls::{ALL_GOOD, FIRST_IS_GOOD, STRANGERS};
use crate::scene::{Change, EMPTY, Row, Scene, Slot};
use crate::told::Told::{Departed, Launched, Refused, Stepped};

// Two controllers that know nothing of each other.
const APART: Scene = Scene {
    hall: Some(Hall(2, STRANGERS, &[])),
    ..EMPTY
};

pub static NODES: &[Scene] = &[
    Scene {
        what: "end",
        before: &[(1, Launch(16, Tree(&[0])))],
        rows: &[Row(Step(0), Stepped(0, 16, None))],
        after: &[Slot(0, 0, 0, 0, 0)],
        ..APART
    },
    Scene {
        what: "act",
        before: &[(1, Launch(16, Tree(&[1, 5, 0])))],
        rows: &[Row(Step(0), Stepped(0, 16, Some(5)))],
        after: &[Slot(0, 0, 2, 16, 0)],
        ..APART
    },
    Scene {
        what: "split",
        before: &[(1, Launch(16, Tree(&[2, 1, 5, 0, 0])))],
        rows: &[Row(Step(0), Stepped(0, 16, None))],
        after: &[Slot(0, 0, 1, 16, 0), Slot(1, 0, 4, 16, 0)],
        ..APART
    },
    Scene {
        what: "repeat",
        before: &[(1, Launch(16, Tree(&[3, 0])))],
        rows: &[Row(Step(0), Stepped(0, 16, None))],
        after: &[Slot(0, 0, 0, 16, 0), Slot(1, 0, 1, 16, 0)],
        ..APART
    },
    Scene {
        what: "depart",
        before: &[(1, Launch(16, Tree(&[4, 17, 1, 3, 1, 0])))],
        rows: &[Row(Step(0), Departed(0, 16, 17, 1, 0))],
        after: &[Slot(0, 0, 5, 17, 1)],
        ..APART
    },
];

pub static PASSES: &[Scene] = &[
    Scene {
        what: "the mover's old pass counts as carried",
        before: &[(1, Launch(16, Tree(&[4, 17, 0, 0])))],
        changes: &[Change::Last(65535)],
        rows: &[Row(Step(0), Departed(0, 16, 17, 1, 1))],
        ..APART
    },
    Scene {
        what: "each pass is behind the last",
        hall: Some(Hall(2, STRANGERS, &[Allows(17, 16, 1)])),
        before: &[(1, Launch(16, Tree(&[4, 17, 0, 4, 16, 0, 0])))],
        rows: &[
            Row(Step(0), Departed(0, 16, 17, 1, 0)),
            Row(Step(0), Departed(1, 17, 16, 2, 0)),
            Row(Launch(16, Tree(&[0])), Launched(16, 3, 0)),
        ],
        ..EMPTY
    },
    Scene {
        what: "64 threads carry 0 to 63",
        before: &[(1, Launch(16, Tree(&[3, 4, 17, 0, 0]))), (63, Step(0))],
        changes: &[Change::Passes, Change::Last(65535)],
        rows: &[Row(Step(1), Departed(1, 16, 17, 64, 64))],
        ..APART
    },
];

pub static THREADS: &[Scene] = &[
    Scene {
        what: "before any set-up",
        rows: &[Row(Step(0), Refused(11)), Row(Step(64), Refused(11))],
        ..EMPTY
    },
    Scene {
        what: "one thread",
        before: &[(1, Launch(16, Tree(&[0])))],
        rows: &[
            Row(Step(1), Refused(11)),
            Row(Step(0), Stepped(0, 16, None)),
            Row(Step(0), Refused(11)),
        ],
        ..APART
    },
    Scene {
        what: "64 threads",
        before: &[(1, Launch(16, Tree(&[3, 0]))), (63, Step(0))],
        rows: &[
            Row(Step(64), Refused(11)),
            Row(Step(18446744073709551615), Refused(11)),
            Row(Step(0), Refused(9)),
            Row(Step(63), Stepped(0, 16, None)),
            Row(Step(63), Refused(11)),
            Row(Step(0), Stepped(0, 16, None)),
        ],
        after: &[Slot(63, 0, 1, 16, 0)],
        ..APART
    },
];

pub static TARGETS: &[Scene] = &[
    Scene {
        what: "a departure to the controller it is at",
        hall: Some(Hall(2, ALL_GOOD, &[Allows(16, 16, 1), Allows(16, 17, 1)])),
        before: &[
            (1, Launch(16, Tree(&[4, 16, 0, 0]))),
            (1, Launch(16, Tree(&[4, 17, 0, 0]))),
        ],
        rows: &[
            Row(Step(0), Refused(13)),
            Row(Step(1), Departed(1, 16, 17, 2, 0)),
        ],
        ..EMPTY
    },
    Scene {
        what: "13 before 8",
        before: &[(1, Launch(16, Tree(&[4, 16, 0, 4, 17, 0, 1, 3, 0])))],
        rows: &[Row(Step(0), Refused(13))],
        ..APART
    },
    Scene {
        what: "no such controller",
        before: &[
            (1, Launch(16, Tree(&[4, 18, 0, 0]))),
            (1, Launch(16, Tree(&[4, 17, 0, 0]))),
        ],
        rows: &[
            Row(Step(0), Refused(16)),
            Row(Step(1), Departed(1, 16, 17, 2, 0)),
        ],
        ..APART
    },
    Scene {
        what: "16 before 8",
        before: &[(1, Launch(16, Tree(&[4, 18, 0, 4, 17, 0, 1, 3, 0])))],
        rows: &[Row(Step(0), Refused(16))],
        ..APART
    },
];

pub static SLIPS: &[Scene] = &[
    Scene {
        what: "the slip compared, action 3 once",
        hall: Some(Hall(2, FIRST_IS_GOOD, &[Allows(17, 3, 1)])),
        before: &[
            (1, Launch(16, Tree(&[4, 17, 1, 3, 2, 0]))),
            (1, Launch(16, Tree(&[4, 17, 1, 3, 1, 0]))),
        ],
        rows: &[
            Row(Step(0), Refused(12)),
            Row(Step(1), Departed(1, 16, 17, 2, 0)),
        ],
        ..EMPTY
    },
    Scene {
        what: "the slip compared, action 3 254 times",
        hall: Some(Hall(2, FIRST_IS_GOOD, &[Allows(17, 3, 254)])),
        before: &[
            (1, Launch(16, Tree(&[4, 17, 1, 3, 255, 0]))),
            (1, Launch(16, Tree(&[4, 17, 1, 3, 254, 0]))),
        ],
        rows: &[
            Row(Step(0), Refused(12)),
            Row(Step(1), Departed(1, 16, 17, 2, 0)),
        ],
        ..EMPTY
    },
    Scene {
        what: "the slip alone, a policy of zeros",
        hall: Some(Hall(2, FIRST_IS_GOOD, &[])),
        before: &[
            (1, Launch(16, Tree(&[4, 17, 1, 5, 1, 4, 16, 0, 1, 3, 0]))),
            (1, Launch(16, Tree(&[4, 17, 0, 4, 16, 0, 1, 3, 0]))),
        ],
        rows: &[
            Row(Step(0), Refused(12)),
            Row(Step(1), Departed(1, 16, 17, 2, 0)),
        ],
        ..EMPTY
    },
];

pub static CODE: &[Scene] = &[
    Scene {
        what: "carried code tested, 16 once",
        hall: Some(Hall(2, STRANGERS, &[Allows(17, 16, 1)])),
        before: &[
            (
                1,
                Launch(16, Tree(&[4, 17, 0, 4, 16, 1, 3, 1, 1, 3, 1, 3, 0])),
            ),
            (
                1,
                Launch(16, Tree(&[4, 17, 0, 4, 16, 1, 3, 2, 1, 3, 1, 3, 0])),
            ),
        ],
        rows: &[
            Row(Step(0), Refused(8)),
            Row(Step(1), Departed(1, 16, 17, 2, 0)),
        ],
        ..EMPTY
    },
    Scene {
        what: "carried code tested, 8 before 7, a policy of zeros",
        before: &[
            (1, Launch(16, Tree(&[4, 17, 0, 4, 16, 0, 1, 3, 0]))),
            (1, Launch(16, Tree(&[4, 17, 0, 4, 16, 1, 3, 1, 1, 3, 0]))),
        ],
        rows: &[Row(Step(0), Refused(8)), Row(Step(1), Refused(7))],
        ..APART
    },
    Scene {
        what: "carried code tested, action 3 once",
        hall: Some(Hall(2, STRANGERS, &[Allows(17, 3, 1)])),
        before: &[
            (1, Launch(16, Tree(&[4, 17, 0, 1, 3, 1, 3, 0]))),
            (1, Launch(16, Tree(&[4, 17, 0, 1, 3, 0]))),
        ],
        rows: &[
            Row(Step(0), Refused(7)),
            Row(Step(1), Departed(1, 16, 17, 2, 0)),
        ],
        ..EMPTY
    },
    Scene {
        what: "carried code tested at a target to which 16 is bad, action 3 once",
        hall: Some(Hall(2, &[0, 0, 2, 0], &[Allows(17, 3, 1)])),
        before: &[
            (1, Launch(16, Tree(&[4, 17, 0, 1, 3, 1, 3, 0]))),
            (1, Launch(16, Tree(&[4, 17, 0, 1, 3, 0]))),
        ],
        rows: &[
            Row(Step(0), Refused(7)),
            Row(Step(1), Departed(1, 16, 17, 2, 0)),
        ],
        ..EMPTY
    },
];
