// The refusals of a launch, on both sides of their limits; those of records are in `records`.
use crate::call::Call::{Launch, SetUp, Step};
use crate::given::Given::{Blank, Bytes, Long, Tree};
use crate::given::{Allows, Hall};
use crate::halls::{ALONE, OPEN};
use crate::scene::{Change, EMPTY, Row, Scene, Slot};
use crate::told::Told::{Launched, Refused, Stepped};

// One controller that only has the bytes read.
const READS: Scene = Scene {
    hall: Some(Hall(1, OPEN, &[])),
    ..EMPTY
};

// A departure with 32 entries on its slip.
const WIDEST: &[u8] = &[
    4, 17, 32, 0, 1, 1, 1, 2, 1, 3, 1, 4, 1, 5, 1, 6, 1, 7, 1, 8, 1, 9, 1, 10, 1, 11, 1, 12, 1, 13,
    1, 14, 1, 15, 1, 16, 1, 17, 1, 18, 1, 19, 1, 20, 1, 21, 1, 22, 1, 23, 1, 24, 1, 25, 1, 26, 1,
    27, 1, 28, 1, 29, 1, 30, 1, 31, 1, 0,
];

pub static ENVELOPES: &[Scene] = &[
    Scene {
        what: "too few bytes",
        rows: &[
            Row(Launch(16, Bytes(&[])), Refused(1)),
            Row(Launch(16, Bytes(&[0])), Refused(1)),
            Row(Launch(16, Bytes(&[0, 1])), Refused(2)),
            Row(Launch(16, Bytes(&[0, 2, 1])), Refused(1)),
            Row(Launch(16, Bytes(&[0, 2, 1, 0])), Launched(16, 0, 0)),
        ],
        ..READS
    },
    Scene {
        what: "a length outside 2..385, or bytes beyond it",
        rows: &[
            Row(Launch(16, Bytes(&[0, 1, 1])), Refused(2)),
            Row(Launch(16, Bytes(&[0, 2, 1, 0, 0])), Refused(2)),
            Row(Launch(16, Bytes(&[0, 2, 1, 0])), Launched(16, 0, 0)),
            Row(Launch(16, Long(386)), Refused(2)),
            Row(Launch(16, Long(385)), Launched(16, 1, 0)),
        ],
        ..READS
    },
    Scene {
        what: "a version other than 1",
        rows: &[
            Row(Launch(16, Bytes(&[0, 2, 0, 0])), Refused(3)),
            Row(Launch(16, Bytes(&[0, 2, 2, 0])), Refused(3)),
            Row(Launch(16, Bytes(&[0, 2, 1, 0])), Launched(16, 0, 0)),
        ],
        ..READS
    },
];

pub static TREES: &[Scene] = &[
    Scene {
        what: "a tree that is cut",
        rows: &[
            Row(Launch(16, Tree(&[1, 3])), Refused(4)),
            Row(Launch(16, Tree(&[1, 3, 0])), Launched(16, 0, 0)),
            Row(Launch(16, Tree(&[2, 0])), Refused(4)),
            Row(Launch(16, Tree(&[2, 0, 0])), Launched(16, 1, 0)),
            Row(Launch(16, Tree(&[3])), Refused(4)),
            Row(Launch(16, Tree(&[3, 0])), Launched(16, 2, 0)),
            Row(Launch(16, Tree(&[4, 17, 1, 3, 1])), Refused(4)),
            Row(Launch(16, Tree(&[4, 17, 1, 3, 1, 0])), Launched(16, 3, 0)),
        ],
        ..READS
    },
    Scene {
        what: "a byte with no meaning",
        rows: &[
            Row(Launch(16, Tree(&[5, 17, 0, 0])), Refused(5)),
            Row(Launch(16, Tree(&[4, 17, 0, 0])), Launched(16, 0, 0)),
            Row(Launch(16, Tree(&[1, 16, 0])), Refused(5)),
            Row(Launch(16, Tree(&[1, 15, 0])), Launched(16, 1, 0)),
            Row(Launch(16, Tree(&[4, 15, 0, 0])), Refused(5)),
            Row(Launch(16, Tree(&[4, 16, 0, 0])), Launched(16, 2, 0)),
            Row(Launch(16, Tree(&[4, 32, 0, 0])), Refused(5)),
            Row(Launch(16, Tree(&[4, 31, 0, 0])), Launched(16, 3, 0)),
        ],
        ..READS
    },
    Scene {
        what: "a byte of a slip with no meaning",
        rows: &[
            Row(Launch(16, Tree(&[4, 17, 33])), Refused(5)),
            Row(Launch(16, Tree(WIDEST)), Launched(16, 0, 0)),
            Row(Launch(16, Tree(&[4, 17, 1, 32, 1, 0])), Refused(5)),
            Row(Launch(16, Tree(&[4, 17, 1, 31, 1, 0])), Launched(16, 1, 0)),
            Row(Launch(16, Tree(&[4, 17, 1, 3, 0, 0])), Refused(5)),
            Row(Launch(16, Tree(&[4, 17, 1, 3, 1, 0])), Launched(16, 2, 0)),
            Row(Launch(16, Tree(&[4, 17, 2, 3, 1, 2, 1, 0])), Refused(5)),
            Row(Launch(16, Tree(&[4, 17, 2, 3, 1, 3, 1, 0])), Refused(5)),
            Row(
                Launch(16, Tree(&[4, 17, 2, 3, 1, 4, 1, 0])),
                Launched(16, 3, 0),
            ),
        ],
        ..READS
    },
    Scene {
        what: "whichever is met first",
        rows: &[
            Row(Launch(16, Tree(&[2, 1, 16])), Refused(5)),
            Row(Launch(16, Tree(&[2, 1, 15])), Refused(4)),
        ],
        ..READS
    },
    Scene {
        what: "tree bytes left over",
        rows: &[
            Row(Launch(16, Tree(&[0, 0])), Refused(6)),
            Row(Launch(16, Tree(&[0, 5])), Refused(6)),
            Row(Launch(16, Tree(&[0])), Launched(16, 0, 0)),
        ],
        ..READS
    },
];

pub static CONTROLLERS: &[Scene] = &[
    Scene {
        what: "before any set-up",
        rows: &[
            Row(Launch(16, Tree(&[0, 0])), Refused(6)),
            Row(Launch(16, Tree(&[0])), Refused(16)),
        ],
        ..EMPTY
    },
    Scene {
        what: "one controller",
        rows: &[
            Row(Launch(0, Tree(&[0])), Refused(16)),
            Row(Launch(15, Tree(&[0])), Refused(16)),
            Row(Launch(17, Tree(&[0])), Refused(16)),
            Row(Launch(255, Tree(&[0])), Refused(16)),
            Row(Launch(16, Tree(&[0])), Launched(16, 0, 0)),
        ],
        ..READS
    },
    Scene {
        what: "16 controllers",
        before: &[(1, SetUp(Blank(770, 1, 16, 772)))],
        rows: &[
            Row(Launch(32, Tree(&[0])), Refused(16)),
            Row(Launch(31, Tree(&[0])), Launched(31, 0, 0)),
        ],
        ..EMPTY
    },
    Scene {
        what: "not trustworthy",
        rows: &[
            Row(Launch(16, Tree(&[4, 17, 0, 1, 3, 0])), Launched(16, 0, 0)),
            Row(Launch(16, Tree(&[3, 1, 3, 0])), Launched(16, 1, 0)),
        ],
        ..READS
    },
    Scene {
        what: "bad to itself",
        hall: Some(Hall(1, &[2], &[])),
        rows: &[
            Row(Launch(16, Tree(&[4, 17, 0, 1, 3, 0])), Launched(16, 0, 0)),
            Row(Launch(16, Tree(&[3, 1, 3, 0])), Launched(16, 1, 0)),
        ],
        ..EMPTY
    },
];

pub static CODE: &[Scene] = &[
    Scene {
        what: "honesty, 17 unlimited",
        hall: Some(Hall(1, ALONE, &[Allows(16, 17, 255)])),
        rows: &[
            Row(
                Launch(16, Tree(&[4, 17, 1, 3, 1, 1, 3, 1, 3, 0])),
                Refused(8),
            ),
            Row(
                Launch(16, Tree(&[4, 17, 1, 3, 2, 1, 3, 1, 3, 0])),
                Launched(16, 0, 0),
            ),
            Row(
                Launch(16, Tree(&[4, 17, 1, 3, 254, 3, 1, 3, 0])),
                Refused(8),
            ),
            Row(
                Launch(16, Tree(&[4, 17, 1, 3, 255, 3, 1, 3, 0])),
                Launched(16, 1, 0),
            ),
            Row(
                Launch(16, Tree(&[4, 17, 1, 18, 1, 4, 18, 0, 1, 3, 0])),
                Refused(8),
            ),
            Row(
                Launch(16, Tree(&[4, 17, 1, 18, 1, 4, 18, 1, 3, 1, 1, 3, 0])),
                Launched(16, 2, 0),
            ),
        ],
        ..EMPTY
    },
    Scene {
        what: "a need, action 3 once",
        hall: Some(Hall(1, ALONE, &[Allows(16, 3, 1)])),
        rows: &[
            Row(Launch(16, Tree(&[1, 3, 1, 3, 0])), Refused(7)),
            Row(Launch(16, Tree(&[1, 4, 0])), Refused(7)),
            Row(Launch(16, Tree(&[1, 3, 0])), Launched(16, 0, 0)),
        ],
        ..EMPTY
    },
    Scene {
        what: "16, then 8 before 7, a policy of zeros",
        hall: Some(Hall(1, ALONE, &[])),
        rows: &[
            Row(Launch(17, Tree(&[4, 17, 0, 1, 3, 0])), Refused(16)),
            Row(Launch(16, Tree(&[4, 17, 0, 1, 3, 0])), Refused(8)),
            Row(Launch(16, Tree(&[4, 17, 1, 3, 1, 1, 3, 0])), Refused(7)),
        ],
        ..EMPTY
    },
];

pub static ROOM: &[Scene] = &[
    Scene {
        what: "64 threads, a policy of zeros",
        hall: Some(Hall(1, ALONE, &[])),
        before: &[(1, Launch(16, Tree(&[3, 0]))), (63, Step(0))],
        rows: &[
            Row(Launch(16, Tree(&[1, 3, 0])), Refused(7)),
            Row(Launch(16, Tree(&[0])), Refused(9)),
            Row(Step(5), Stepped(0, 16, None)),
            Row(Launch(16, Tree(&[0])), Launched(16, 1, 0)),
            Row(Launch(16, Tree(&[0])), Refused(9)),
        ],
        after: &[Slot(5, 1, 0, 16, 1)],
        ..EMPTY
    },
    Scene {
        what: "8 places used",
        before: &[(8, Launch(16, Tree(&[0])))],
        rows: &[
            Row(Launch(16, Tree(&[0])), Refused(10)),
            Row(Step(5), Stepped(5, 16, None)),
            Row(Launch(16, Tree(&[0])), Launched(16, 8, 0)),
            Row(Launch(16, Tree(&[0])), Refused(10)),
        ],
        after: &[Slot(5, 5, 0, 16, 8)],
        ..READS
    },
    Scene {
        what: "zeros behind a tree in a place used again",
        before: &[
            (1, Launch(16, Tree(&[1, 5, 1, 5, 0]))),
            (3, Step(0)),
            (1, Launch(16, Tree(&[0]))),
        ],
        changes: &[Change::Thread(Slot(1, 0, 1, 16, 9))],
        rows: &[Row(Step(1), Stepped(9, 16, None))],
        ..READS
    },
    Scene {
        what: "64 threads and 8 places used",
        before: &[(8, Launch(16, Tree(&[3, 0]))), (56, Step(0))],
        rows: &[Row(Launch(16, Tree(&[0])), Refused(9))],
        ..READS
    },
];
