// Vectors of a key and two blocks, which are run either way.
ghost use Rattle.std.specs.Prelude.{◌≤◌};

use crate::text::{field, hex, read_hex};

// The length of a key, and that of its schedule.
#[derive(Clone, Copy, PartialEq)]
pub enum Length {
    Short,
    Middle,
    Long,
}

impl Length {
    // Of a key that is spelt by so many digits.
    fn of(digits: usize) -> Option<Length> {
        match digits {
            32 => Some(Length::Short),
            48 => Some(Length::Middle),
            64 => Some(Length::Long),
            _ => None,
        }
    }

    // How many bytes they have.
    pub fn key(self) -> usize
        ensures { result ≤ 32 }
    {
        match self {
            Length::Short => 16,
            Length::Middle => 24,
            Length::Long => 32,
        }
    }

    pub fn schedule(self) -> usize
        ensures { result ≤ 240 }
    {
        match self {
            Length::Short => 176,
            Length::Middle => 208,
            Length::Long => 240,
        }
    }
}

// A key, in room for the longest. Zeros follow one that is shorter.
#[derive(Clone, Copy, PartialEq)]
pub struct Key {
    pub length: Length,
    pub room: [u8; 32],
}

impl Key {
    pub fn long(bytes: [u8; 32]) -> Key {
        Key {
            length: Length::Long,
            room: bytes,
        }
    }

    pub fn read(field: &[u8]) -> Option<Key> {
        let length = Length::of(field.len())?;
        let mut room = [0; 32];
        read_hex(field, &mut room[..length.key()])?;
        Some(Key { length, room })
    }

    pub fn bytes(&self) -> &[u8] {
        &self.room[..self.length.key()]
    }
}

// What a line has.
#[derive(Clone, Copy)]
pub struct Vector {
    pub key: Key,
    pub plain: [u8; 16],
    pub cipher: [u8; 16],
}

// From the plain block to the cipher block, or back.
#[derive(Clone, Copy, PartialEq)]
pub enum Way {
    Encrypt,
    Decrypt,
}

impl Vector {
    pub fn read(line: &[u8]) -> Option<Vector> {
        let v = Vector {
            key: Key::read(field(line, 0))?,
            plain: hex(field(line, 1))?,
            cipher: hex(field(line, 2))?,
        };
        if line.len() != 2 * v.key.length.key() + 66 {
            return None;
        }
        Some(v)
    }

    // The block that a call is given.
    pub fn start(&self, way: Way) -> [u8; 16] {
        match way {
            Way::Encrypt => self.plain,
            Way::Decrypt => self.cipher,
        }
    }

    // The block that it should write.
    pub fn end(&self, way: Way) -> [u8; 16] {
        match way {
            Way::Encrypt => self.cipher,
            Way::Decrypt => self.plain,
        }
    }
}
