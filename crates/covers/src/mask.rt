// Tables of sixteen masks, and the masks over a state.
use crate::labels::Labels;
use aes::add;
use std::array::from_fn;

// M0 to M15, as document 002 has them.
pub const PUBLISHED: [u8; 16] =
    *b"\x00\x0f\x36\x39\x53\x5c\x65\x6a\x95\x9a\xa3\xac\xc6\xc9\xf0\xff";

// Others, made of a block of a vector, so that they change from vector to vector. One byte stands twice among these, as in no fit
// table.
pub fn unfit(block: [u8; 16]) -> [u8; 16] {
    let mut r = block;
    r[15] = r[0];
    r
}

// Over the bytes of a state, so many rounds on.
pub fn mask(table: [u8; 16], labels: Labels, rounds: usize) -> [u8; 16] {
    from_fn(|k| table[labels.label(rounds, k)])
}

// What an early module stored of a cipher block, in form 1 with the published masks: the mask of its last label is still over it.
pub fn stored(offset: u8, cipher: [u8; 16]) -> [u8; 16] {
    let labels = Labels {
        offset,
        step: 1,
        spread: 1,
    };
    add(cipher, mask(PUBLISHED, labels, 14))
}
