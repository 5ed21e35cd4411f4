// The thread slots: the lowest that is free, the thread in one, and the putting of a thread into one.
ghost use Rattle.std.specs.Prelude.{◌≡◌, ◌-◌, get_or, set};
ghost use Rattle.rules.specs.Nets.{zero_thread, slot_in};
ghost use Rattle.net.specs.Parts.{below};

use rules::Thread;
use std::ops::Range;

// The lowest free slot of a range, if one is free.
pub fn free_slot(threads: &[Thread; 64], mut slots: Range<usize>) -> Option<usize>
    ensures { result ≡ below slots.end (slot_in threads.now slots.start (slots.end - slots.start)) }
{
    slots.find(|slot| thread_at(threads, *slot).is_free())
}

// The thread in a slot; behind the slots there is none.
pub fn thread_at(threads: &[Thread; 64], slot: usize) -> Thread
    ensures { result ≡ get_or threads.now slot zero_thread }
{
    threads.get(slot).copied().unwrap_or_default()
}

// Puts a thread into a slot; behind the slots it is put nowhere.
pub fn put(threads: &mut [Thread; 64], slot: usize, t: Thread)
    ensures { threads.new ≡ set threads.old slot t }
{
    if slot < 64 {
        threads[slot] = t;
    }
}
