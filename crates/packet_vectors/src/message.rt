// Messages of up to eleven blocks, in clear and as CBC makes them.
ghost use Rattle.std.specs.Prelude.{◌≤◌};

use aes::add;
use lines::row::{Row, read_of_key};
use lines::text::{Lines, field, hex};
use lines::vector::{Key, Vector};
use std::iter::once;

// As many blocks as a packet has room for: they are 176 bytes, of 184.
const MOST: usize = 11;

// A starting block, how many blocks follow, and their key and they.
#[derive(Clone, Copy)]
pub struct Message {
    pub start: [u8; 16],
    pub blocks: usize,
    pub row: Row,
    ghost fits: { blocks ≤ 11 },
}

impl Message {
    // Without any block yet.
    fn none(key: Key, start: [u8; 16]) -> Message {
        Message {
            start,
            blocks: 0,
            row: Row::none(key),
        }
    }

    // Puts one block more, where a packet has room for it.
    fn put(&mut self, v: Vector) {
        let k = self.blocks;
        if k < MOST {
            self.row.put(k, v);
            self.blocks = k + 1;
        }
    }

    // The blocks of a line and of those below it that have its key, chained from a block of zeros. A line has what the cipher is given:
    // that is a block in clear, added to the cipher block before it.
    pub fn chained(line: &[u8], below: &[u8]) -> Option<Message> {
        let key = Vector::read(line)?.key;
        let start = [0; 16];
        let mut message = Message::none(key, start);
        let mut last = start;
        let lines = once(line).chain(Lines { text: below });
        for given in lines.map_while(|line| read_of_key(line, key)).take(MOST) {
            let plain = add(given.plain, last);
            let cipher = given.cipher;
            message.put(Vector { key, plain, cipher });
            last = cipher;
        }
        Some(message)
    }

    // A line is a key, a starting block, and all blocks in clear and as CBC makes them.
    pub fn read(line: &[u8]) -> Option<Message> {
        let key = Key::read(field(line, 0))?;
        let mut message = Message::none(key, hex(field(line, 1))?);
        let (plain, _) = field(line, 2).as_chunks::<32>();
        let (cipher, _) = field(line, 3).as_chunks::<32>();
        let blocks = plain.len();
        if (blocks == 0) | (MOST < blocks) | (cipher.len() < blocks) {
            return None;
        }
        if line.len() != 99 + 64 * blocks {
            return None;
        }
        for (plain, cipher) in plain.iter().zip(cipher) {
            message.put(Vector {
                key,
                plain: hex(plain)?,
                cipher: hex(cipher)?,
            });
        }
        Some(message)
    }
}
