// The tables of a set-up: rows of a fixed width, zero beyond n.
ghost use Rattle.std.specs.Prelude.{◌≡◌};
ghost use Rattle.rules.specs.Calls.{trust_byte, policy_byte};

use crate::bytes::{byte_at, times};

// The trust byte at an index of the table: the bytes have rows of n. A row below n is a byte, hence `as`.
pub fn trust_byte(bytes: &[u8], n: u8, x: usize) -> u8
    ensures { result ≡ trust_byte bytes.now n x }
{
    let row = x / 16;
    let column = x % 16;
    if row < usize::from(n) && column < usize::from(n) {
        byte_at(bytes, 4 + times(n, row as u8) + column)
    } else {
        0
    }
}

// The count at an index of the policies: they follow the n × n trust bytes.
pub fn policy_byte(bytes: &[u8], n: u8, x: usize) -> u8
    ensures { result ≡ policy_byte bytes.now n x }
{
    if x / 32 < usize::from(n) {
        byte_at(bytes, 4 + times(n, n) + x)
    } else {
        0
    }
}
