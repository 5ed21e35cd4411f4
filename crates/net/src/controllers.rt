// The set-up's part of the record: which controllers there are, whom they trust, and what their policies allow.
ghost use Rattle.std.specs.Prelude.{◌≡◌, ◌-◌, ◌<◌, leb, length};
ghost use Rattle.std.specs.List.{list_all};
ghost use Rattle.net.specs.Parts.{stands_in, trust_in, policy_in};

use crate::bytes::byte_at;
use program::Controller;

// Is it a controller of a net of n?
pub fn in_net(n: u8, k: Controller) -> bool
    ensures { result ≡ stands_in n k }
{
    k.0.checked_sub(16).is_some_and(|row| row < n)
}

// Its row in the tables.
fn row(k: Controller) -> usize
    ensures { (result ≡ k.0 - 16) × (result < 256) }
{
    usize::from(k.0.saturating_sub(16))
}

// The trust of k in l: 0 unknown, 1 good, 2 bad. A byte, as C's record has it, since what is asked is said for every byte.
pub fn trust_of(trust: &[u8], k: Controller, l: Controller) -> u8
    ensures { result ≡ trust_in trust.now k l }
{
    byte_at(trust, 16 * row(k) + row(l))
}

// Is every trust byte unknown, good or bad?
pub fn trust_bytes(trust: &[u8]) -> bool
    ensures { result ≡ list_all (λ b. leb b 2) trust.now }
{
    trust.iter().all(|b| *b <= 2)
}

// The 32 counts of its policy.
pub fn policy_of(policies: &[u8; 512], k: Controller) -> [u8; 32]
    requires { k.0 < 32 }
    ensures { result ≡ policy_in policies.now k }
{
    let from = 32 * row(k);
    let mut counts = [0; 32];
    counts.copy_from_slice(&policies[from..from + 32]);
    counts
}
