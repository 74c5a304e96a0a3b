// How the labels of a masked run go: from the offset of each byte on, by a step.
ghost use Rattle.std.specs.Prelude.{◌<◌};

use std::array::from_fn;

// The offset of the first byte, the step, and how far the offset of each byte is from that of the byte before it.
#[derive(Clone, Copy)]
pub struct Labels {
    pub offset: u8,
    pub step: u8,
    pub spread: u8,
}

// Sixteen offsets, each with the thirteen steps that are taken.
pub const ALL: usize = 208;

// So many with the record of one offset, and as many with others.
pub const RECORDS: usize = 416;

const STEPS: [u8; 13] = [1, 4, 5, 6, 7, 8, 9, 10, 11, 12, 13, 14, 15];

// By 1 the offset of each byte is that of its run; these are those of other records.
const SPREADS: [u8; 15] = [0, 2, 3, 4, 5, 6, 7, 8, 9, 10, 11, 12, 13, 14, 15];

// The labels of the run with this number. Offset and step both turn, and 16 and 13 have no factor in common: so any 208 runs on
// end have them all.
pub fn turned(i: usize) -> Labels {
    Labels {
        offset: (i % 16) as u8,
        step: STEPS[i % 13],
        spread: if i <= ALL { 1 } else { SPREADS[i % 15] },
    }
}

impl Labels {
    // The label of byte k of a state, so many rounds on.
    pub fn label(self, rounds: usize, k: usize) -> usize
        ensures { result < 16 }
    {
        let step = usize::from(self.step);
        let spread = usize::from(self.spread);
        (usize::from(self.offset) + rounds % 16 * step + k % 16 * spread) % 16
    }

    // The offset of each byte.
    pub fn record(self) -> [u8; 16] {
        from_fn(|k| self.label(0, k) as u8)
    }

    // The offsets of blocks in one call: each is one further than that of the block before it.
    pub fn offsets(self) -> [u8; 16] {
        Labels { spread: 1, ..self }.record()
    }
}
