// What a step of a slot does, by the node at its thread's position: found out before anything is changed.
ghost use Rattle.std.specs.Prelude.{◌≡◌, ◌≤◌};
ghost use Rattle.net.specs.Turns.{depart_check, Near, turn_at, turned};

use crate::controllers::{in_net, policy_of};
use crate::entry::{at_entry, enter};
use crate::places::place_bytes;
use crate::slots::{free_slot, thread_at};
use crate::sound::sound;
use program::{Action, Controller, Departure, Node, node_at};
use rules::{Net, Refusal, Thread};

// Positions of the programs inside the node, and the lowest free slot where one is needed.
#[derive(Clone, Copy, Debug, PartialEq, Eq)]
pub enum Turn {
    Ends,
    Acts(Action, u16),
    Splits(usize, u16, u16),
    Repeats(usize, u16),
    Departs(Controller, u16),
}

// Whether the target lets the thread in: 13, 16, then 12 alone or 8 before 7. In a net of at most 16 each controller has a policy: `turn_of`
// knows it of a sound net, and `turn_at` hands it on.
#[tactic(auto, using(crate::proofs::Turns::d_enters))]
fn departure_check(net: &Net, t: Thread, own: Departure) -> Result<(), Refusal>
    requires { net.now.n ≤ 16 }
    ensures { result ≡ depart_check net.now t own }
{
    if own.controller == t.controller {
        return Err(Refusal::AlreadyHere);
    }
    if !in_net(net.n, own.controller) {
        return Err(Refusal::NoController);
    }
    let look = at_entry(&net.trust, own.controller, t.controller);
    let policy = policy_of(&net.policies, own.controller);
    let tree = place_bytes(&net.places, t.place);
    enter(look, policy, tree, own.slip, own.entries, own.carried)
}

// By node: a second side and a body need a free slot (9), a departure the target's leave. Positions inside a place fit, and so `as`: the error
// of `try_from` could not be.
fn turn_at(net: &Net, t: Thread, node: Node) -> Result<Turn, Refusal>
    requires { (net.now.n ≤ 16) × Near node }
    ensures { result ≡ turn_at net.now t node }
{
    let free = || free_slot(&net.threads, 0..64).ok_or(Refusal::NoSlot);
    Ok(match node {
        Node::End => Turn::Ends,
        Node::Act(action, next) => Turn::Acts(action, next as u16),
        Node::Split(first, second) => Turn::Splits(free()?, first as u16, second as u16),
        Node::Repeat(body) => Turn::Repeats(free()?, body as u16),
        Node::Depart(own) => {
            departure_check(net, t, own)?;
            Turn::Departs(own.controller, own.carried as u16)
        }
    })
}

// 99, 11, then by node.
#[tactic(auto, using(crate::proofs::Turns::turns))]
pub fn turn_of(net: &Net, slot: usize) -> Result<Turn, Refusal>
    ensures { result ≡ turned net.now slot }
{
    if !sound(net) {
        return Err(Refusal::NotSound);
    }
    let t = thread_at(&net.threads, slot);
    if 63 < slot || t.is_free() {
        return Err(Refusal::NoThread);
    }
    let tree = place_bytes(&net.places, t.place);
    let Some(node) = node_at(tree, usize::from(t.position)) else {
        return Err(Refusal::NotSound);
    };
    turn_at(net, t, node)
}
