// What programs need, and what policies allow.
#![tactic(auto)]

mod table;
mod tally;
mod test;

pub use tally::{Tally, needs_at};
pub use test::{CodeFault, test_code, test_slip};
