// The set-up of a fresh net, whatever record was there.
ghost use Rattle.std.specs.Prelude.{◌≡◌, ◌+◌, ◌*◌};
ghost use Rattle.program.specs.Envelope.{stated};
ghost use Rattle.rules.specs.Calls as rules;
ghost use Rattle.net.specs.Checks.{described};

use crate::bytes::{byte_at, times};
use crate::coherence::coherent;
use crate::controllers::trust_bytes;
use crate::tables::{policy_byte, trust_byte};
use program::envelope_of;
use rules::{Counter, Fields, Net, Outcome, Refusal, Thread};
use std::array;

// The net that the bytes describe: no threads, empty places, and 65,535 as the last pass issued.
fn fresh(bytes: &[u8]) -> Net
    ensures { result ≡ rules.set_up_net bytes.now }
{
    let n = byte_at(bytes, 3);
    Net {
        n,
        trust: array::from_fn(|x| trust_byte(bytes, n, x)),
        policies: array::from_fn(|x| policy_byte(bytes, n, x)),
        threads: [Thread::default(); 64],
        places: [0; 3072],
        counter: Counter { last: u16::MAX },
    }
}

// The length that the bytes state.
fn length_of(bytes: &[u8]) -> usize
    ensures { result ≡ stated bytes.now }
{
    usize::from(u16::from_be_bytes([byte_at(bytes, 0), byte_at(bytes, 1)]))
}

// The length of a set-up of n controllers.
fn length_for(n: u8) -> usize
    ensures { result ≡ 2 + n * n + 32 * n }
{
    2 + times(n, n) + 32 * usize::from(n)
}

// The fresh net, or 1, 2, 3, then 14 for n, for the length and for a trust byte, then 15.
#[tactic(auto, using(crate::proofs::SetUps::set_ups))]
fn described(bytes: &[u8]) -> Result<Net, Refusal>
    ensures { result ≡ described bytes.now }
{
    envelope_of(bytes, 2, 770)?;
    let n = byte_at(bytes, 3);
    if n < 1 || 16 < n {
        return Err(Refusal::BadSetUp);
    }
    if length_of(bytes) != length_for(n) {
        return Err(Refusal::BadSetUp);
    }
    let net = fresh(bytes);
    if !trust_bytes(&net.trust) {
        return Err(Refusal::BadSetUp);
    }
    if !coherent(&net.trust, n) {
        return Err(Refusal::NotCoherent);
    }
    Ok(net)
}

#[tactic(auto, using(crate::proofs::SetUps::set_up_is))]
pub fn set_up(net: Net, bytes: &[u8]) -> Outcome
    ensures { result ≡ rules.called net (rules.set_up bytes.now) }
{
    match described(bytes) {
        Ok(made) => Outcome {
            reply: Ok(Fields::default()),
            net: made,
        },
        Err(why) => Outcome {
            reply: Err(why),
            net,
        },
    }
}
