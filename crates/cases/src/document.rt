// Document 01's cases 1 to 14, and its worked listing.
use crate::call::Call::{Launch, SetUp, Step};
use crate::given::Given::{Bytes, Long, Tables, Tree};
use crate::given::{Allows, Hall};
use crate::halls::{ALL_GOOD, ALONE, OPEN};
use crate::scene::{Change, EMPTY, Row, Scene, Slot};
use crate::told::Told::{Departed, Fresh, Launched, Refused, Stepped};

// The trees of cases 3 to 7 and 9.
const TWICE: &[u8] = &[1, 3, 1, 3, 0];

const BOTH: &[u8] = &[2, 1, 3, 0, 1, 3, 0];

const AGAIN: &[u8] = &[3, 1, 3, 0];

const AWAY: &[u8] = &[4, 17, 1, 3, 1, 1, 3, 0];

const EMPTY_SLIP: &[u8] = &[4, 17, 0, 1, 3, 0];

const AWAY_AGAIN: &[u8] = &[3, 4, 17, 0, 0];

const WIDE_SLIP: &[u8] = &[4, 17, 1, 3, 2, 1, 3, 0];

pub static NEEDS: &[Scene] = &[
    Scene {
        what: "case 1, a policy of zeros",
        hall: Some(Hall(1, ALONE, &[])),
        rows: &[
            Row(Launch(16, Tree(&[0])), Launched(16, 0, 0)),
            Row(Launch(16, Tree(&[1, 0, 0])), Refused(7)),
        ],
        ..EMPTY
    },
    Scene {
        what: "case 2, a policy of zeros",
        hall: Some(Hall(1, ALONE, &[])),
        rows: &[
            Row(Launch(16, Tree(&[3, 0])), Launched(16, 0, 0)),
            Row(Launch(16, Tree(&[3, 1, 0, 0])), Refused(7)),
        ],
        ..EMPTY
    },
    Scene {
        what: "case 3, action 3 twice",
        hall: Some(Hall(1, ALONE, &[Allows(16, 3, 2)])),
        rows: &[Row(Launch(16, Tree(TWICE)), Launched(16, 0, 0))],
        ..EMPTY
    },
    Scene {
        what: "case 3, action 3 once",
        hall: Some(Hall(1, ALONE, &[Allows(16, 3, 1)])),
        rows: &[Row(Launch(16, Tree(TWICE)), Refused(7))],
        ..EMPTY
    },
    Scene {
        what: "case 4, action 3 twice",
        hall: Some(Hall(1, ALONE, &[Allows(16, 3, 2)])),
        rows: &[Row(Launch(16, Tree(BOTH)), Launched(16, 0, 0))],
        ..EMPTY
    },
    Scene {
        what: "case 4, action 3 once",
        hall: Some(Hall(1, ALONE, &[Allows(16, 3, 1)])),
        rows: &[Row(Launch(16, Tree(BOTH)), Refused(7))],
        ..EMPTY
    },
    Scene {
        what: "case 5, action 3 unlimited",
        hall: Some(Hall(1, ALONE, &[Allows(16, 3, 255)])),
        rows: &[Row(Launch(16, Tree(AGAIN)), Launched(16, 0, 0))],
        ..EMPTY
    },
    Scene {
        what: "case 5, action 3 254 times",
        hall: Some(Hall(1, ALONE, &[Allows(16, 3, 254)])),
        rows: &[Row(Launch(16, Tree(AGAIN)), Refused(7))],
        ..EMPTY
    },
    Scene {
        what: "case 6, 17 once and action 3 not at all",
        hall: Some(Hall(1, ALONE, &[Allows(16, 17, 1)])),
        rows: &[Row(Launch(16, Tree(AWAY)), Launched(16, 0, 0))],
        ..EMPTY
    },
    Scene {
        what: "case 6, 17 not at all and action 3 unlimited",
        hall: Some(Hall(1, ALONE, &[Allows(16, 3, 255)])),
        rows: &[Row(Launch(16, Tree(AWAY)), Refused(7))],
        ..EMPTY
    },
    Scene {
        what: "case 7, 17 and action 3 unlimited",
        hall: Some(Hall(1, ALONE, &[Allows(16, 17, 255), Allows(16, 3, 255)])),
        rows: &[
            Row(Launch(16, Tree(EMPTY_SLIP)), Refused(8)),
            Row(Launch(16, Tree(AWAY)), Launched(16, 0, 0)),
        ],
        ..EMPTY
    },
    Scene {
        what: "case 8, 17 unlimited",
        hall: Some(Hall(1, ALONE, &[Allows(16, 17, 255)])),
        rows: &[Row(Launch(16, Tree(AWAY_AGAIN)), Launched(16, 0, 0))],
        ..EMPTY
    },
    Scene {
        what: "case 8, 17 254 times",
        hall: Some(Hall(1, ALONE, &[Allows(16, 17, 254)])),
        rows: &[Row(Launch(16, Tree(AWAY_AGAIN)), Refused(7))],
        ..EMPTY
    },
];

pub static MOVES: &[Scene] = &[
    Scene {
        what: "case 9, from a good controller",
        hall: Some(Hall(2, ALL_GOOD, &[Allows(16, 17, 1), Allows(17, 3, 1)])),
        before: &[(1, Launch(16, Tree(WIDE_SLIP)))],
        rows: &[Row(Step(0), Refused(12))],
        ..EMPTY
    },
    Scene {
        what: "case 9, from a good controller, action 3 twice",
        hall: Some(Hall(2, ALL_GOOD, &[Allows(16, 17, 1), Allows(17, 3, 2)])),
        before: &[(1, Launch(16, Tree(WIDE_SLIP)))],
        rows: &[Row(Step(0), Departed(0, 16, 17, 1, 0))],
        ..EMPTY
    },
    Scene {
        what: "case 9, from an unknown controller",
        hall: Some(Hall(2, &[1, 1, 0, 1], &[Allows(16, 17, 1), Allows(17, 3, 1)])),
        before: &[(1, Launch(16, Tree(WIDE_SLIP)))],
        rows: &[Row(Step(0), Departed(0, 16, 17, 1, 0))],
        ..EMPTY
    },
    Scene {
        what: "case 10, 0 and 1 carried, last pass 65535",
        hall: Some(Hall(1, ALONE, &[])),
        before: &[(2, Launch(16, Tree(&[0])))],
        changes: &[Change::Last(65535)],
        rows: &[Row(Launch(16, Tree(&[0])), Launched(16, 2, 2))],
        after: &[
            Slot(0, 0, 0, 16, 0),
            Slot(1, 1, 0, 16, 1),
            Slot(2, 2, 0, 16, 2),
        ],
    },
];

pub static BYTES: &[Scene] = &[
    Scene {
        what: "case 11",
        hall: Some(Hall(1, ALONE, &[])),
        rows: &[
            Row(Launch(16, Bytes(&[])), Refused(1)),
            Row(Launch(16, Bytes(&[0, 1, 1])), Refused(2)),
            Row(Launch(16, Bytes(&[0, 2, 2, 0])), Refused(3)),
            Row(Launch(16, Bytes(&[0, 2, 1, 5])), Refused(5)),
            Row(Launch(16, Bytes(&[0, 3, 1, 1, 0])), Refused(4)),
            Row(Launch(16, Bytes(&[0, 3, 1, 0, 0])), Refused(6)),
        ],
        ..EMPTY
    },
    Scene {
        what: "case 12",
        hall: Some(Hall(1, ALONE, &[Allows(16, 3, 255), Allows(16, 17, 1)])),
        rows: &[
            Row(Launch(16, Tree(&[4, 17, 2, 3, 1, 3, 1, 0])), Refused(5)),
            Row(Launch(16, Tree(&[4, 17, 1, 3, 0, 0])), Refused(5)),
            Row(
                Launch(16, Tree(&[4, 17, 2, 3, 1, 4, 1, 0])),
                Launched(16, 0, 0),
            ),
            Row(Launch(16, Long(385)), Launched(16, 1, 0)),
            Row(Launch(16, Long(386)), Refused(2)),
        ],
        ..EMPTY
    },
    Scene {
        what: "case 13",
        rows: &[
            Row(SetUp(Tables(Hall(2, &[1, 1, 0, 0], &[]))), Refused(15)),
            Row(SetUp(Tables(Hall(2, &[1, 1, 0, 1], &[]))), Fresh),
            Row(SetUp(Tables(Hall(2, &[1, 0, 0, 0], &[]))), Fresh),
            Row(SetUp(Tables(Hall(2, &[0, 1, 0, 0], &[]))), Fresh),
        ],
        ..EMPTY
    },
];

pub static FULL: &[Scene] = &[
    Scene {
        what: "case 14, 64 threads",
        hall: Some(Hall(1, OPEN, &[])),
        before: &[
            (1, Launch(16, Tree(&[1, 3, 0]))),
            (1, Launch(16, Tree(&[3, 2, 0, 0]))),
            (62, Step(1)),
        ],
        rows: &[
            Row(Step(2), Refused(9)),
            Row(Step(0), Stepped(0, 16, Some(3))),
        ],
        after: &[Slot(0, 0, 2, 16, 0)],
        ..EMPTY
    },
    Scene {
        what: "case 14, 63 threads",
        hall: Some(Hall(1, OPEN, &[])),
        before: &[
            (1, Launch(16, Tree(&[1, 3, 0]))),
            (1, Launch(16, Tree(&[3, 2, 0, 0]))),
            (61, Step(1)),
        ],
        rows: &[Row(Step(2), Stepped(1, 16, None))],
        after: &[Slot(2, 1, 2, 16, 1), Slot(63, 1, 3, 16, 1)],
        ..EMPTY
    },
    Scene {
        what: "the worked listing",
        hall: Some(Hall(2, ALL_GOOD, &[Allows(16, 17, 1), Allows(17, 3, 1)])),
        rows: &[
            Row(Launch(16, Tree(AWAY)), Launched(16, 0, 0)),
            Row(Step(0), Departed(0, 16, 17, 1, 0)),
            Row(Step(0), Stepped(1, 17, Some(3))),
            Row(Step(0), Stepped(1, 17, None)),
            Row(Step(0), Refused(11)),
        ],
        ..EMPTY
    },
];
