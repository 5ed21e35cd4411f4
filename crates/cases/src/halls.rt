// Who trusts whom in the scenes' halls, row by row: 0 unknown, 1 good, 2 bad.

// One controller that is trustworthy, so that launched code is tested; and one that is not.
pub const ALONE: &[u8] = &[1];

pub const OPEN: &[u8] = &[0];

// Two controllers: strangers; all good; and the second trusts the first, so that the slip is compared.
pub const STRANGERS: &[u8] = &[0, 0, 0, 0];

pub const ALL_GOOD: &[u8] = &[1, 1, 1, 1];

pub const FIRST_IS_GOOD: &[u8] = &[0, 0, 1, 0];
