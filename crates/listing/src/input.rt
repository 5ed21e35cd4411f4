// Bytes from standard input, in a buffer of fixed size that the caller owns.
ghost use Rattle.std.specs.Prelude.{◌≤◌, IfOk, length};

use std::io;
use std::io::Read;

// The most that an envelope may say follows its two length bytes.
pub const LONGEST_SET_UP: usize = 770;

pub const LONGEST_PROGRAM: usize = 385;

// Room for the longest envelope, a set-up's.
pub type Room = [u8; 772];

// What came of an envelope: all of it; its two length bytes, which are out of range; or less than it says.
#[derive(Clone, Copy)]
pub enum Envelope<'a> {
    Whole(&'a [u8]),
    OutOfRange(&'a [u8]),
    Cut(&'a [u8]),
}

impl<'a> Envelope<'a> {
    pub(crate) fn bytes(self) -> &'a [u8] {
        match self {
            Envelope::Whole(bytes) | Envelope::OutOfRange(bytes) | Envelope::Cut(bytes) => bytes,
        }
    }
}

pub fn read_byte<R: Read>(input: &mut R) -> io::Result<Option<u8>> {
    input.bytes().next().transpose()
}

// Reads until `bytes` are full or the input ends, and says how many came: `read_exact` does not, hence the loop.
fn read_full<R: Read>(input: &mut R, bytes: &mut [u8]) -> io::Result<usize>
    ensures { IfOk result (λ n. n ≤ length bytes.new) }
{
    let mut done = 0;
    while done < bytes.len() {
        match input.read(&mut bytes[done..])? {
            0 => break,
            got => done += got,
        }
    }
    Ok(done)
}

// An envelope whose length may be 2 to `most`, a set-up's at most; of one that is out of range no more is read.
pub fn read_envelope<'a, R: Read>(
    input: &mut R,
    room: &'a mut Room,
    most: usize,
) -> io::Result<Envelope<'a>> {
    let head = read_full(input, &mut room[..2])?;
    if head < 2 {
        return Ok(Envelope::Cut(&room[..head]));
    }
    let stated = usize::from(u16::from_be_bytes([room[0], room[1]]));
    if stated < 2 || most.min(LONGEST_SET_UP) < stated {
        return Ok(Envelope::OutOfRange(&room[..2]));
    }
    let end = 2 + stated;
    let got = 2 + read_full(input, &mut room[2..end])?;
    if got < end {
        return Ok(Envelope::Cut(&room[..got]));
    }
    Ok(Envelope::Whole(&room[..end]))
}
