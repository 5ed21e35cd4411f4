// The test of soundness, first of all on every launch and step.
ghost use Rattle.std.specs.Prelude.{◌≡◌};
ghost use Rattle.std.specs.List.{list_all};
ghost use Rattle.rules.specs.Sound.{soundb};
ghost use Rattle.net.specs.Ends.{slot_holds};

use crate::controllers::{in_net, trust_bytes};
use crate::ends::Reads;
use rules::{Net, Thread};

// A free slot is zero; a thread has a controller of the net, a place, and a position from which a whole program can be read.
fn slots_sound(n: u8, places: &[u8; 3072], threads: &[Thread; 64]) -> bool
    ensures { result ≡ list_all (slot_holds n places.now) threads.now }
{
    let mut reads = Reads::new(places);
    for t in threads {
        let holds = if t.is_free() {
            *t == Thread::default()
        } else {
            in_net(n, t.controller) && reads.has_program(t.place, t.position)
        };
        if !holds {
            return false;
        }
    }
    true
}

// Is the record sound?
#[tactic(auto, unfolding(rules::specs::Sound::soundb))]
pub fn sound(net: &Net) -> bool
    ensures { result ≡ soundb net.now }
{
    net.n <= 16 && trust_bytes(&net.trust) && slots_sound(net.n, &net.places, &net.threads)
}
