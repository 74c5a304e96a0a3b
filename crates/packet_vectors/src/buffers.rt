// The packets and the list of pipes that a call is lent.
ghost use Rattle.std.specs.Prelude.{◌≤◌};

use std::array::from_fn;

// What stands in a buffer where nothing was written, and all over the list, except for PIDs and what a call should take from it.
pub const UNTOUCHED: u8 = 0xa5;

// The PIDs of the pipes: the lowest and the highest that may be listed, and some between them that have a byte in common.
pub const PIDS: [[u8; 2]; 7] = [
    *b"\x00\x10",
    *b"\x00\x11",
    *b"\x01\x00",
    *b"\x01\x10",
    *b"\x10\x00",
    *b"\x10\x10",
    *b"\x1f\xfe",
];

// Where a message stands: in which pipe, under the even or the odd schedule, and from where to where in a packet.
#[derive(Clone, Copy)]
pub struct Place {
    pub pipe: usize,
    pub odd: bool,
    pub start: usize,
    pub end: usize,
    ghost fits: { (pipe ≤ 6) × (start ≤ end) × (end ≤ 188) },
}

impl Place {
    // A packet with these scrambling bits and blocks. What is left between the header and the blocks is the adaptation field. In that
    // and behind the blocks each byte is its place, so that one that was moved is told.
    pub fn packet(&self, bits: u8, blocks: &[u8]) -> [u8; 188] {
        let mut r = from_fn(|i| i as u8);
        lay(&mut r, &self.header(bits));
        lay(&mut r[self.start..self.end], blocks);
        r
    }

    // The header, and the length of the adaptation field, under code 11. Under code 01 there is none, and the blocks cover that byte.
    fn header(&self, bits: u8) -> [u8; 5] {
        let [high, low] = PIDS[self.pipe];
        match self.start.checked_sub(5) {
            Some(length) => [0x47, 0x40 | high, low, bits | 0x3b, length as u8],
            None => [0x47, 0x40 | high, low, bits | 0x1b, 0],
        }
    }

    // All PIDs, and for one pipe a schedule and a starting block.
    pub fn list(&self, schedule: &[u8; 240], start: &[u8; 16]) -> [[u8; 498]; 7] {
        let mut list = [[UNTOUCHED; 498]; 7];
        for (pipe, pid) in list.iter_mut().zip(PIDS.iter()) {
            lay(pipe, pid);
        }
        let own = &mut list[self.pipe];
        let at = if self.odd { 242 } else { 2 };
        lay(&mut own[at..], schedule);
        lay(&mut own[482..], start);
        list
    }
}

// Lays bytes over the front of a buffer, as far as it goes.
fn lay(buffer: &mut [u8], bytes: &[u8]) {
    for (own, byte) in buffer.iter_mut().zip(bytes) {
        *own = *byte;
    }
}
