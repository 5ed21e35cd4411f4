// The one record that every call works on, and what a call answers. What each call means stands in specs/.
#![tactic(auto)]

mod net;
mod reply;

pub use net::{Counter, Issued, Net, Thread};
pub use reply::{Fields, Name, Outcome, Refusal, Reply};
