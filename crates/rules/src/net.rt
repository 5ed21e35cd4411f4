// The net's record: the set-up, 64 thread slots, 8 program places of 384 bytes, and the pass counter. It is laid out as C would, for
// callers that lend it.
ghost use Rattle.std.specs.Prelude.{◌≡◌};
ghost use Rattle.rules.specs.Nets.{free};
ghost use Rattle.rules.specs.Issued.{issued_by};

use program::Controller;

// A running thread: its place, its position in the place's tree, where it stands, and its stay's pass. A free slot is all zero.
#[repr(C)]
#[derive(Clone, Copy, Debug, Default, PartialEq, Eq)]
pub struct Thread {
    pub place: u8,
    pub position: u16,
    pub controller: Controller,
    pub pass: u16,
}

impl Thread {
    // No thread runs in a slot with controller 0.
    pub fn is_free(self) -> bool
        ensures { result ≡ free self }
    {
        self.controller.0 == 0
    }
}

// The last pass issued.
#[repr(C)]
#[derive(Clone, Copy, Debug, Default, PartialEq, Eq)]
pub struct Counter {
    pub last: u16,
}

// A new pass, the counter that has issued it, and how many numbers were passed over.
#[derive(Clone, Copy, Debug, PartialEq, Eq)]
pub struct Issued {
    pub pass: u16,
    pub counter: Counter,
    pub over: u8,
}

impl Counter {
    // The first number after the last one issued that no thread carries; a free slot carries none.
    // A labelled loop over the candidates, left with that number, as the scope paper has it.
    pub fn issue(self, threads: [Thread; 64]) -> Issued
        ensures { result ≡ issued_by self threads }
    {
        let mut over: u8 = 0;
        let mut candidate = self.last.wrapping_add(1);
        let pass = 'candidates: loop {
            if !threads.iter().any(|t| !t.is_free() && t.pass == candidate) {
                break 'candidates candidate;
            }
            over += 1;
            candidate = candidate.wrapping_add(1);
        };
        Issued {
            pass,
            counter: Counter { last: pass },
            over,
        }
    }
}

// Trust has rows of 16 (who trusts), policies have rows of 32 counts, both zero beyond n; places follow each other.
#[repr(C)]
#[derive(Clone, Copy, Debug, Default, PartialEq, Eq)]
pub struct Net {
    pub n: u8,
    pub trust: [u8; 256],
    pub policies: [u8; 512],
    pub threads: [Thread; 64],
    pub places: [u8; 3072],
    pub counter: Counter,
}
