// The launch of a program at a controller: its rows are tested, and then it is placed.
ghost use Rattle.std.specs.Prelude.{◌≡◌};
ghost use Rattle.rules.specs.Calls as rules;
ghost use Rattle.net.specs.Checks.{first_row, room};

use crate::controllers::{in_net, policy_of};
use crate::entry::{at_launch, enter};
use crate::places::{free_place, write_tree};
use crate::slots::{free_slot, put};
use crate::sound::sound;
use program::{Controller, body, envelope_of, read_program};
use rules::{Fields, Net, Outcome, Refusal, Thread};

// 4 or 5, whichever the reading meets first, then 6.
fn tree_check(bytes: &[u8]) -> Result<(), Refusal>
    ensures { result ≡ first_row (rules.tree_rows bytes.now) }
{
    let tree = body(bytes);
    if read_program(tree, 0)? < tree.len() {
        return Err(Refusal::LeftOver);
    }
    Ok(())
}

// 99, the bytes, 16, what the controller asks, then room: the lowest free slot and the lowest free place.
#[tactic(auto, using(crate::proofs::Launches::launches))]
fn room_for(net: &Net, c: Controller, bytes: &[u8]) -> Result<(usize, u8), Refusal>
    ensures { result ≡ room net.now c bytes.now }
{
    if !sound(net) {
        return Err(Refusal::NotSound);
    }
    envelope_of(bytes, 2, 385)?;
    tree_check(bytes)?;
    if !in_net(net.n, c) {
        return Err(Refusal::NoController);
    }
    // A launch brings no slip, and none is looked at.
    let look = at_launch(&net.trust, c);
    let policy = policy_of(&net.policies, c);
    enter(look, policy, body(bytes), 0, 0, 0)?;
    let Some(slot) = free_slot(&net.threads, 0..64) else {
        return Err(Refusal::NoSlot);
    };
    let Some(place) = free_place(&net.threads, 0..8) else {
        return Err(Refusal::NoPlace);
    };
    Ok((slot, place))
}

#[tactic(auto, using(crate::proofs::Launches::launched))]
pub fn launch(net: Net, c: Controller, bytes: &[u8]) -> Outcome
    ensures { result ≡ rules.called net (rules.launch c bytes.now) }
{
    match room_for(&net, c, bytes) {
        Ok((slot, place)) => {
            let mut after = net;
            let issued = net.counter.issue(net.threads);
            let begun = Thread {
                place,
                position: 0,
                controller: c,
                pass: issued.pass,
            };
            put(&mut after.threads, slot, begun);
            write_tree(&mut after.places, place, body(bytes));
            after.counter = issued.counter;
            Outcome {
                reply: Ok(Fields {
                    controller: Some(c),
                    fresh: Some(issued.pass),
                    over: issued.over,
                    ..Fields::default()
                }),
                net: after,
            }
        }
        Err(why) => Outcome {
            reply: Err(why),
            net,
        },
    }
}
