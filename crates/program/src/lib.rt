// The bytes of a program: its names, the reader of its tree, the node at a position, and the envelope around it.
#![tactic(auto)]

mod envelope;
mod names;
mod node;
mod reader;

pub use envelope::{EnvelopeFault, body, envelope_of};
pub use names::{Action, Controller, Unnamed};
pub use node::{Node, node_at};
pub use reader::{Departure, Fault, Start, head_at, read_program, start_at};
