// The bytes that a call is given, from the short forms in which the tables have them.
ghost use Rattle.std.specs.Prelude.{◌≤◌};

use std::fmt;

// Room for the longest set-up and a few bytes beyond it; what is pushed on a full one is left out.
#[derive(Clone, Copy)]
pub struct Bytes {
    all: [u8; 776],
    length: usize,
    ghost fits: { length ≤ 776 },
}

impl Bytes {
    fn new() -> Self {
        Bytes {
            all: [0; 776],
            length: 0,
        }
    }

    fn push(&mut self, byte: u8) {
        if self.length < 776 {
            self.all[self.length] = byte;
            self.length += 1;
        }
    }

    fn push_all(&mut self, bytes: &[u8]) {
        for byte in bytes {
            self.push(*byte);
        }
    }

    pub(crate) fn as_slice(&self) -> &[u8] {
        &self.all[..self.length]
    }
}

// Bytes in hex; of many the first ones, and how many there are.
#[derive(Clone, Copy)]
pub struct Hex<'a>(pub &'a [u8]);

impl fmt::Display for Hex<'_> {
    fn fmt<W: fmt::Write>(&self, f: &mut fmt::Formatter<W>) -> fmt::Result {
        if self.0.is_empty() {
            return f.write_str("no bytes");
        }
        for (at, byte) in self.0.iter().take(16).enumerate() {
            let before = if at == 0 { "" } else { " " };
            write!(f, "{before}{byte:02x}")?;
        }
        if 16 < self.0.len() {
            write!(f, " .. ({} bytes)", self.0.len())?;
        }
        Ok(())
    }
}

// A count that is not zero: whose policy, which name, how often.
#[derive(Clone, Copy)]
pub struct Allows(pub u8, pub u8, pub u8);

// A hall: how many controllers, whom they trust, row by row, and what their policies allow.
#[derive(Clone, Copy)]
pub struct Hall(pub u8, pub &'static [u8], pub &'static [Allows]);

impl Hall {
    fn count(self, k: u8, name: u8) -> u8 {
        self.2
            .iter()
            .find(|a| a.0 == k && a.1 == name)
            .map_or(0, |a| a.2)
    }
}

#[derive(Clone, Copy)]
pub enum Given {
    // These bytes.
    Bytes(&'static [u8]),
    // A tree in its envelope.
    Tree(&'static [u8]),
    // An envelope of this length, with a right tree of acts in it.
    Long(u16),
    // A hall's tables in their envelope: its set-up.
    Tables(Hall),
    // A length, a version, a number of controllers, and zeros up to so many bytes.
    Blank(u16, u8, u8, usize),
}

impl Given {
    pub(crate) fn bytes(self) -> Bytes {
        match self {
            Given::Bytes(bytes) => of_slice(bytes),
            Given::Tree(tree) => enveloped(tree),
            Given::Long(length) => of_acts(length),
            Given::Tables(hall) => enveloped(tables_of(hall).as_slice()),
            Given::Blank(length, version, n, size) => of_zeros(length, version, n, size),
        }
    }
}

fn of_slice(bytes: &[u8]) -> Bytes {
    let mut out = Bytes::new();
    out.push_all(bytes);
    out
}

// The length, and the version.
fn headed(length: u16, version: u8) -> Bytes {
    let mut out = of_slice(&length.to_be_bytes());
    out.push(version);
    out
}

fn enveloped(body: &[u8]) -> Bytes {
    let size = u16::try_from(body.len()).unwrap_or(u16::MAX);
    let mut out = headed(size.saturating_add(1), 1);
    out.push_all(body);
    out
}

// Acts and an end are an odd number of bytes; a repeat before them makes it even.
fn of_acts(length: u16) -> Bytes {
    let mut out = headed(length, 1);
    let size = length.saturating_sub(1);
    if size % 2 == 0 {
        out.push(3);
    }
    for _ in 0..size.saturating_sub(1) / 2 {
        out.push_all(&[1, 3]);
    }
    out.push(0);
    out
}

// The number of controllers, the trust bytes and the policies.
fn tables_of(hall: Hall) -> Bytes {
    let mut out = Bytes::new();
    out.push(hall.0);
    out.push_all(hall.1);
    for row in 0..hall.0 {
        for name in 0..32 {
            out.push(hall.count(row.saturating_add(16), name));
        }
    }
    out
}

fn of_zeros(length: u16, version: u8, n: u8, size: usize) -> Bytes {
    let mut out = headed(length, version);
    out.push(n);
    for _ in 4..size {
        out.push(0);
    }
    out
}
