// What the program at a position of a tree needs, and whether it is honest. Each byte is read once, whatever the depth;
// a slip's entries twice, first judged, then counted.
ghost use Rattle.std.specs.Prelude.{◌≡◌};
ghost use Rattle.program.specs.Reading.{read_at, depart_at};
ghost use Rattle.policy.specs.Bytes.{gathered, need_bytes};
ghost use Rattle.policy.specs.Tallies.{tally_of};

use crate::table::{add, fits_all, slip_counts};
use program::{Fault, Start, head_at, start_at};

// Of a whole program: the offset after it, whether it is honest, and its need of each name, 255 for unlimited and for a
// number above 254, which fits the same.
#[derive(Clone, Copy, Debug, PartialEq, Eq)]
pub struct Tally {
    pub end: usize,
    pub honest: bool,
    pub needs: [u8; 32],
}

// Counts the program at `at` on top of `before`: each name `times`, which is 1, or 255 inside a repeat.
#[cycle(gather_gather_departure)]
#[tactic(auto, using(crate::proofs::Ways::ways))]
fn gather(tree: &[u8], at: usize, times: u8, before: [u8; 32]) -> Result<Tally, Fault>
    ensures { result ≡ tally_of (gathered times before) (read_at tree.now at) }
{
    match start_at(tree, at)? {
        Start::End(end) => Ok(Tally {
            end,
            honest: true,
            needs: before,
        }),
        Start::Act(action, next) => gather(tree, next, times, add(before, action.0, times)),
        Start::Split(first) => {
            let one = gather(tree, first, times, before)?;
            let two = gather(tree, one.end, times, one.needs)?;
            Ok(Tally {
                honest: one.honest & two.honest,
                ..two
            })
        }
        Start::Repeat(body) => gather(tree, body, 255, before),
        Start::Depart(own) => gather_departure(tree, own, times, before),
    }
}

// The same of a departure, from its controller's byte, at `at`: what it carries is counted apart, and held to the slip.
#[cycle(gather_gather_departure)]
#[tactic(auto, using(crate::proofs::Ways::ways))]
fn gather_departure(tree: &[u8], at: usize, times: u8, before: [u8; 32]) -> Result<Tally, Fault>
    ensures { result ≡ tally_of (gathered times before) (depart_at (read_at tree.now) tree.now at) }
{
    let own = head_at(tree, at)?;
    let carried = gather(tree, own.carried, 1, [0; 32])?;
    let fits = fits_all(carried.needs, slip_counts(tree, own.slip, own.entries));
    Ok(Tally {
        end: carried.end,
        honest: fits & carried.honest,
        needs: add(before, own.controller.0, times),
    })
}

// The end, the honesty and the needs of the program at `at`.
#[tactic(auto, using(crate::proofs::Verdicts::all_needs))]
pub fn needs_at(tree: &[u8], at: usize) -> Result<Tally, Fault>
    ensures { result ≡ tally_of need_bytes (read_at tree.now at) }
{
    gather(tree, at, 1, [0; 32])
}
