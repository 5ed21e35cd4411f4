// A byte of lent bytes, and the product of two bytes.
ghost use Rattle.std.specs.Prelude.{◌≡◌, ◌*◌, get_or};

// Past the end 0 and no Option, as the definitions read.
pub fn byte_at(bytes: &[u8], i: usize) -> u8
    ensures { result ≡ get_or bytes.now i 0 }
{
    bytes.get(i).copied().unwrap_or(0)
}

pub fn times(a: u8, b: u8) -> usize
    ensures { result ≡ a * b }
{
    usize::from(a) * usize::from(b)
}
