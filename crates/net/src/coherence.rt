// Coherence: what a trustworthy controller knows of another is what that one says of itself.
ghost use Rattle.std.specs.Prelude.{◌≡◌, ◌≤◌};
ghost use Rattle.net.specs.Parts.{agrees_in, all_agree, coherent_in};

use crate::controllers::trust_of;
use program::Controller;

// k's trust in l, where k is trustworthy, is unknown or l's trust in itself.
fn agrees(trust: &[u8], k: Controller, l: Controller) -> bool
    ensures { result ≡ agrees_in trust.now k l }
{
    let known = trust_of(trust, k, l);
    trust_of(trust, k, k) != 1 || known == 0 || known == trust_of(trust, l, l)
}

// k and every controller of a net of n, of at most 16 as its set-up is told here and in `coherent`: so 16 + n is a byte.
fn agrees_with_all(trust: &[u8], n: u8, k: Controller) -> bool
    requires { n ≤ 16 }
    ensures { result ≡ all_agree trust.now n k }
{
    (16..16 + n).all(|l| agrees(trust, k, Controller(l)))
}

pub fn coherent(trust: &[u8], n: u8) -> bool
    requires { n ≤ 16 }
    ensures { result ≡ coherent_in trust.now n }
{
    (16..16 + n).all(|k| agrees_with_all(trust, n, Controller(k)))
}
