// What a controller links: the net lent by `&mut`, a reply as plain numbers.
#![tactic(auto)]

mod answer;
mod by_value;
mod calls;
#[cfg(test)]
mod tests;
mod told;

pub use answer::{Answer, Shown};
pub use by_value::{launch_via, set_up_via, step_via};
pub use calls::{diverter_launch, diverter_set_up, diverter_step};
pub use told::{Told, via};
