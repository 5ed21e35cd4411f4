// Where the whole programs of a place end. A place that threads share is read once, from the right: where the program that begins at a
// position ends is known from the positions behind it. Each thread is then one look-up.
ghost use Rattle.std.specs.Prelude.{◌≡◌, ◌+◌, ◌≤◌, ◌<◌, IsSome, None, length, nat_lt, ◌&&◌, slice_index, slice_index_or};
ghost use Rattle.program.specs.Reading.{read_at};
ghost use Rattle.rules.specs.Nets.{place_bytes};
ghost use Rattle.rules.specs.Sound.{is_whole};
ghost use Rattle.net.specs.Ends.{end_at, marked, ZerosFrom, zero_end, Behind, AllRight};

use crate::places::place_bytes;
use program::{Start, head_at, start_at};
use std::array;

// For each position of a place, and the one behind it: where the program that begins there ends, and 0 where none does, since none ends at 0. Numbers
// and no Options, here and in what is answered of them: a place has 384 to look up and to write, and with Options a step on eight full places took
// 1.5 times as long.
type Ends = [u16; 385];

// Behind the place there is no program.
fn end_in(ends: &Ends, at: usize) -> usize
    ensures { result ≡ slice_index ends.now at }
{
    usize::from(ends.get(at).copied().unwrap_or(0))
}

// Where the program at `at` ends, by the ends behind it.
#[tactic(auto, using(crate::proofs::Endings::endings))]
fn end_at(tree: &[u8], at: usize, ends: &Ends) -> usize
    requires { (length tree.now ≤ 384) × Behind tree.now ends.now (at + 1) }
    ensures { result ≡ marked (end_at tree.now at) }
{
    match start_at(tree, at) {
        Ok(Start::End(next)) => next,
        Ok(Start::Act(_, next)) => end_in(ends, next),
        Ok(Start::Split(first)) => match end_in(ends, first) {
            0 => 0,
            second => end_in(ends, second),
        },
        Ok(Start::Repeat(body)) => end_in(ends, body),
        Ok(Start::Depart(own)) => head_at(tree, own).map_or(0, |head| end_in(ends, head.carried)),
        Err(_) => 0,
    }
}

// How many bytes there are up to the last that is not 0.
fn used(tree: &[u8]) -> usize
    ensures low { result ≤ length tree.now }
    ensures zeros { ZerosFrom tree.now result }
{
    for at in (0..tree.len()).rev() {
        if tree[at] != 0 {
            return at + 1;
        }
    }
    0
}

// Where a zero ends, if one stands there: each zero is an end.
fn zero_end(at: usize) -> u16
    ensures { result ≡ zero_end at }
{
    if at < 384 { at as u16 + 1 } else { 0 }
}

// The zeros behind a tree are known unread. A place's tree: so an end fits, as `as` says, where the error of `try_from` could not be.
fn read_ends(tree: &[u8]) -> Ends
    requires { length tree.now ≡ 384 }
    ensures { Behind tree.now result 0 }
{
    let mut ends = array::from_fn(|at| zero_end(at));
    for at in (0..used(tree)).rev() {
        ends[at] = end_at(tree, at, &ends) as u16;
    }
    ends
}

// The places, with the ends of each that a thread has asked for.
#[derive(Drop)]
pub struct Reads<'a> {
    places: &'a [u8; 3072],
    ends: [Option<Ends>; 8],
    ghost right: { AllRight places.now ends },
}

impl<'a> Reads<'a> {
    pub fn new(places: &'a [u8; 3072]) -> Self
        ensures { result.places.now ≡ places.now }
    {
        Reads {
            places,
            ends: [None; 8],
        }
    }

    // Reads a place that is not read yet.
    fn read(&mut self, place: u8)
        requires { place < 8 }
        ensures read { IsSome (slice_index_or self.new.ends place None) }
        ensures kept { self.new.places.now ≡ self.old.places.now }
    {
        let at = usize::from(place);
        if self.ends[at].is_none() {
            let ends = read_ends(place_bytes(self.places, place));
            self.ends[at] = Some(ends);
        }
    }

    // Does a whole program begin at a position of a place? There is no ninth place.
    pub fn has_program(&mut self, place: u8, position: u16) -> bool
        ensures found { result ≡ (nat_lt place 8 && is_whole (read_at (place_bytes self.old.places.now place) position)) }
        ensures kept { self.new.places.now ≡ self.old.places.now }
    {
        if 8 <= place {
            return false;
        }
        self.read(place);
        let position = usize::from(position);
        match &self.ends[usize::from(place)] {
            Some(ends) => end_in(ends, position) != 0,
            None => false,
        }
    }
}
