// The program places: which are used, the lowest that is free, a place's bytes, and the writing of a tree into one.
ghost use Rattle.std.specs.Prelude.{◌≡◌, ◌+◌, ◌-◌, ◌≤◌, ◌<◌, length};
ghost use Rattle.std.specs.List.{list_any};
ghost use Rattle.rules.specs.Nets.{has, place_in, place_bytes};
ghost use Rattle.rules.specs.Calls.{written};
ghost use Rattle.net.specs.Parts.{below};

use rules::Thread;
use std::ops::Range;

// Does some thread use this place? A free slot uses none.
pub fn is_used(threads: &[Thread; 64], place: u8) -> bool
    ensures { result ≡ list_any (has (λ t. t.place) place) threads.now }
{
    threads.iter().any(|t| !t.is_free() && t.place == place)
}

// The lowest free place of a range, if one is free.
pub fn free_place(threads: &[Thread; 64], mut places: Range<u8>) -> Option<u8>
    ensures { result ≡ below places.end (place_in threads.now places.start (places.end - places.start)) }
{
    places.find(|place| !is_used(threads, *place))
}

// A place's 384 bytes; there is no ninth place.
#[tactic(auto, using(crate::proofs::Writes::places))]
pub fn place_bytes(places: &[u8; 3072], place: u8) -> &[u8]
    ensures bytes { result.now ≡ place_bytes places.now place }
    ensures long { place < 8 → length result.now ≡ 384 }
{
    if place < 8 {
        let from = 384 * usize::from(place);
        &places[from..from + 384]
    } else {
        &[]
    }
}

// Writes a tree, and zeros behind it, into a place: nothing of what stood there is left. A launched tree is no longer than a place; it is no place's
// bytes yet, so no type of a place could say so.
#[tactic(auto, using(crate::proofs::Writes::places))]
pub fn write_tree(places: &mut [u8; 3072], place: u8, tree: &[u8])
    requires { (place < 8) × (length tree.now ≤ 384) }
    ensures { places.new ≡ written places.old place tree.now }
{
    let mut bytes = [0; 384];
    bytes[..tree.len()].copy_from_slice(tree);
    let from = 384 * usize::from(place);
    places[from..from + 384].copy_from_slice(&bytes);
}
