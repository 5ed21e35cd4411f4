// The node at a position, for whoever steps.
ghost use Rattle.std.specs.Prelude.{◌≡◌};
ghost use Rattle.program.specs.Nodes.{node_at};

use crate::names::Action;
use crate::reader::{Departure, Start, head_at, read_program, start_at};

// A node, with the positions of the programs inside it.
#[derive(Clone, Copy, Debug, PartialEq, Eq)]
pub enum Node {
    End,
    Act(Action, usize),
    Split(usize, usize),
    Repeat(usize),
    Depart(Departure),
}

// The node at `at`, where one can be read: of the programs inside it only a split's first side is read, to find the
// second.
#[tactic(auto, unfolding(crate::specs::Nodes::node_at, crate::specs::Nodes::node_behind, crate::specs::Reading::and_then))]
pub fn node_at(tree: &[u8], at: usize) -> Option<Node>
    ensures { result ≡ node_at tree.now at }
{
    Some(match start_at(tree, at).ok()? {
        Start::End(_) => Node::End,
        Start::Act(action, next) => Node::Act(action, next),
        Start::Split(first) => Node::Split(first, read_program(tree, first).ok()?),
        Start::Repeat(body) => Node::Repeat(body),
        Start::Depart(own) => Node::Depart(head_at(tree, own).ok()?),
    })
}
