// The calls on a net as code by value: set-up, launch and step, each proved to be what the rules say.
#![tactic(auto)]

mod bytes;
mod coherence;
mod controllers;
mod ends;
mod entry;
mod launching;
mod places;
mod setting_up;
mod slots;
mod sound;
mod stepping;
mod tables;
mod turn;

pub use launching::launch;
pub use setting_up::set_up;
pub use stepping::step;
