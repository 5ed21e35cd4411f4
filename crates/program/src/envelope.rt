// What lies around a program and a set-up: two length bytes, big-endian, a version byte, and what follows.
ghost use Rattle.std.specs.Prelude.{◌≡◌, drop};
ghost use Rattle.program.specs.Envelope.{envelope};

// Why an envelope is not right: fewer bytes than are wanted (1), a length out of range or bytes beyond it (2), another
// version (3).
#[derive(Clone, Copy, Debug, PartialEq, Eq)]
pub enum EnvelopeFault {
    Fewer,
    Length,
    Version,
}

// The length of all that follows may be `least` to `most`.
#[tactic(auto, unfolding(crate::specs::Envelope::envelope))]
pub fn envelope_of(bytes: &[u8], least: usize, most: usize) -> Result<(), EnvelopeFault>
    ensures { result ≡ envelope least most bytes.now }
{
    let [high, low, given @ ..] = bytes else {
        return Err(EnvelopeFault::Fewer);
    };
    let stated = usize::from(u16::from_be_bytes([*high, *low]));
    if stated < least || most < stated {
        return Err(EnvelopeFault::Length);
    }
    if given.len() < stated {
        return Err(EnvelopeFault::Fewer);
    }
    if stated < given.len() {
        return Err(EnvelopeFault::Length);
    }
    if given.first() != Some(&1) {
        return Err(EnvelopeFault::Version);
    }
    Ok(())
}

// What follows the version byte.
pub fn body(bytes: &[u8]) -> &[u8]
    ensures { result.now ≡ drop 3 bytes.now }
{
    bytes.get(3..).unwrap_or(&[])
}
