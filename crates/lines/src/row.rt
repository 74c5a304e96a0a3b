// Rows of up to sixteen vectors that share a key.
use crate::text::Lines;
use crate::vector::{Key, Vector};

// The key of all, and their blocks.
#[derive(Clone, Copy)]
pub struct Row {
    pub key: Key,
    pub plain: [[u8; 16]; 16],
    pub cipher: [[u8; 16]; 16],
}

// The vector that a line has, where it has this key.
pub fn read_of_key(line: &[u8], key: Key) -> Option<Vector> {
    Vector::read(line).filter(|v| v.key == key)
}

impl Row {
    // Zeros, in place of any block.
    pub fn none(key: Key) -> Row {
        Row {
            key,
            plain: [[0; 16]; 16],
            cipher: [[0; 16]; 16],
        }
    }

    // Puts the blocks of a vector at the place k.
    pub fn put(&mut self, k: usize, v: Vector) {
        let plain = v.plain;
        let cipher = v.cipher;
        self.plain[k % 16] = plain;
        self.cipher[k % 16] = cipher;
    }

    // Sixteen vectors: a first one and those of the lines below it that share its key, and from the first on again where they are
    // fewer.
    pub fn of(first: Vector, below: &[u8]) -> Row {
        let mut row = Row::none(first.key);
        let mut lines = Lines { text: below };
        row.put(0, first);
        for k in 1..16 {
            match lines.next().and_then(|line| read_of_key(line, first.key)) {
                Some(next) => row.put(k, next),
                None => {
                    row.put(k, first);
                    lines = Lines { text: below };
                }
            }
        }
        row
    }
}
