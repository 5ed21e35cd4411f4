// Reads a program's tree in prefix form, left to right; each byte is judged where it stands, by the bytes before it. Tree and
// offset are two arguments and no cursor: a split has two offsets in one tree, and a fault and a thread name theirs.
ghost use Rattle.std.specs.Prelude.{◌≡◌, ◌+◌};
ghost use Rattle.program.specs.Reading.{kind_at, slip_at, head_at, depart_at, read_at};
ghost use Rattle.program.specs.Shown.{shown, shown_byte, shown_start, shown_head, stop_of, stopped, fault_at};

use crate::names::{Action, Controller};

// Why there is nothing to read: the bytes end before it does, or the byte at this offset has no meaning at its place.
#[derive(Clone, Copy, Debug, PartialEq, Eq)]
pub enum Fault {
    Cut,
    Bad(usize),
}

// What a node's first byte says, and an act's action; each with where the rest of the node begins.
#[derive(Clone, Copy, Debug, PartialEq, Eq)]
pub enum Start {
    End(usize),
    Act(Action, usize),
    Split(usize),
    Repeat(usize),
    Depart(usize),
}

// A departure's own bytes: its controller, where its slip's entries stand, how many they are, and where the carried
// program begins.
#[derive(Clone, Copy, Debug, PartialEq, Eq)]
pub struct Departure {
    pub controller: Controller,
    pub slip: usize,
    pub entries: u8,
    pub carried: usize,
}

// The byte at `at`, whatever it says.
#[tactic(auto, unfolding(crate::specs::Reading::byte_at, crate::specs::Reading::judge))]
fn byte(tree: &[u8], at: usize) -> Result<u8, Fault>
    ensures { result ≡ shown_byte tree.now at 0 256 }
{
    tree.get(at).copied().ok_or(Fault::Cut)
}

// The byte at `at`, which has a meaning from `low` to `last`.
#[tactic(auto, unfolding(crate::specs::Reading::byte_at, crate::specs::Reading::judge))]
fn byte_in(tree: &[u8], at: usize, low: u8, last: u8) -> Result<u8, Fault>
    ensures { result ≡ shown_byte tree.now at low (last + 1) }
{
    let b = byte(tree, at)?;
    if low <= b && b <= last {
        Ok(b)
    } else {
        Err(Fault::Bad(at))
    }
}

// The start of the node at `at`.
#[tactic(auto, unfolding(crate::specs::Reading::kind_at, crate::specs::Reading::kind_by, crate::specs::Reading::byte_at, crate::specs::Reading::judge))]
pub fn start_at(tree: &[u8], at: usize) -> Result<Start, Fault>
    ensures { result ≡ shown_start (kind_at tree.now at) }
{
    let kind = byte(tree, at)?;
    let next = at + 1;
    match kind {
        0 => Ok(Start::End(next)),
        1 => {
            let action = Action::try_from(byte(tree, next)?).map_err(|_| Fault::Bad(next))?;
            Ok(Start::Act(action, next + 1))
        }
        2 => Ok(Start::Split(next)),
        3 => Ok(Start::Repeat(next)),
        4 => Ok(Start::Depart(next)),
        _ => Err(Fault::Bad(at)),
    }
}

// `n` slip entries from `at`, names rising strictly, no count 0.
#[tactic(auto, using(crate::proofs::Parts::slip_step), unfolding(crate::specs::Reading::entry_at, crate::specs::Reading::byte_at, crate::specs::Reading::judge, crate::specs::Reading::and_then, crate::specs::Reading::slip_at))]
fn read_slip(tree: &[u8], at: usize, n: u8) -> Result<usize, Fault>
    ensures { result ≡ shown (slip_at tree.now n 0 at) }
{
    // Counted on beside the loop, since a fault names it.
    let mut k = at;
    let mut low = 0;
    for _ in 0..n {
        let name = byte_in(tree, k, low, 31)?;
        let count = k + 1;
        byte_in(tree, count, 1, 255)?;
        low = name + 1;
        k = count + 1;
    }
    Ok(k)
}

// A departure's own bytes, from its controller's, at `at`.
#[tactic(auto, using(crate::proofs::Parts::slip_long), unfolding(crate::specs::Reading::head_at, crate::specs::Reading::byte_at, crate::specs::Reading::judge, crate::specs::Reading::and_then))]
pub fn head_at(tree: &[u8], at: usize) -> Result<Departure, Fault>
    ensures { result ≡ shown_head at (head_at tree.now at) }
{
    let controller = Controller::try_from(byte(tree, at)?).map_err(|_| Fault::Bad(at))?;
    let count = at + 1;
    let entries = byte_in(tree, count, 0, 32)?;
    let slip = count + 1;
    Ok(Departure {
        controller,
        slip,
        entries,
        carried: read_slip(tree, slip, entries)?,
    })
}

// The program whose first byte is at `at`.
#[tactic(auto, using(crate::proofs::Ways::stops))]
pub fn read_program(tree: &[u8], at: usize) -> Result<usize, Fault>
    ensures { result ≡ shown (read_at tree.now at) }
{
    program_end(tree, at).map_err(|stop| fault_at(tree, stop))
}

// Where it ends, or else where reading it stops: two words, which a call hands back in registers. A fault beside an end is three, and cost each node
// of a tree four times the stack and half as much time again.
#[cycle(departure_end_program_end)]
#[tactic(auto, using(crate::proofs::Ways::ways))]
fn program_end(tree: &[u8], at: usize) -> Result<usize, usize>
    ensures { result ≡ stopped tree.now (shown (read_at tree.now at)) }
{
    match start_at(tree, at) {
        Ok(Start::End(next)) => Ok(next),
        Ok(Start::Act(_, next)) => program_end(tree, next),
        Ok(Start::Split(first)) => {
            let second = program_end(tree, first)?;
            program_end(tree, second)
        }
        Ok(Start::Repeat(body)) => program_end(tree, body),
        Ok(Start::Depart(own)) => departure_end(tree, own),
        Err(why) => Err(stop_of(tree, why)),
    }
}

// The same of the rest of a departure, from its controller's byte, at `at`, to the end of the program that it carries.
#[cycle(departure_end_program_end)]
#[tactic(auto, using(crate::proofs::Ways::ways))]
fn departure_end(tree: &[u8], at: usize) -> Result<usize, usize>
    ensures { result ≡ stopped tree.now (shown (depart_at (read_at tree.now) tree.now at)) }
{
    match head_at(tree, at) {
        Ok(own) => program_end(tree, own.carried),
        Err(why) => Err(stop_of(tree, why)),
    }
}

// Where reading stops: at the byte that has no meaning, or where the bytes end.
fn stop_of(tree: &[u8], why: Fault) -> usize
    ensures { result ≡ stop_of tree.now why }
{
    match why {
        Fault::Cut => tree.len(),
        Fault::Bad(at) => at,
    }
}

// Why it stops there.
fn fault_at(tree: &[u8], stop: usize) -> Fault
    ensures { result ≡ fault_at tree.now stop }
{
    if stop < tree.len() {
        Fault::Bad(stop)
    } else {
        Fault::Cut
    }
}
