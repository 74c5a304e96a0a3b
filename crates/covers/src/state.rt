// The mask over each state of a masked run, by the state's number in the record.
use crate::labels::Labels;
use crate::mask::mask;
use aes::{inv_mix_columns, inv_shift_rows, mix_columns, shift_rows};
use lines::vector::Way;

pub fn over_state(way: Way, table: [u8; 16], labels: Labels, n: usize) -> [u8; 16] {
    match way {
        Way::Encrypt => over_encryption(table, labels, n),
        Way::Decrypt => over_decryption(table, labels, n),
    }
}

// States come in fives: the covered block, or what a compensation leaves, then after a key, boxes, ShiftRows and MixColumns. Boxes
// lead to the next label. The last five end with the last key's state, which is not mixed, and the uncovered block follows.
fn over_encryption(table: [u8; 16], labels: Labels, n: usize) -> [u8; 16] {
    let own = mask(table, labels, n / 5);
    let next = mask(table, labels, n / 5 + 1);
    match (n, n % 5) {
        (70, _) => [0; 16],
        (69, _) | (_, 3) => shift_rows(next),
        (_, 2) => next,
        (_, 4) => mix_columns(shift_rows(next)),
        _ => own,
    }
}

// States come in sixes: after InvMixColumns and its correction, InvShiftRows and its correction, boxes and a key. Boxes lead to the
// next label. The first two are the covered block and the first key's state; the uncovered block follows the last six.
fn over_decryption(table: [u8; 16], labels: Labels, n: usize) -> [u8; 16] {
    let own = mask(table, labels, n / 6);
    let next = mask(table, labels, n / 6 + 1);
    match (n, n % 6) {
        (0, _) => own,
        (84, _) => [0; 16],
        (_, 0) => inv_mix_columns(own),
        (_, 2) => inv_shift_rows(own),
        (_, 4 | 5) => next,
        _ => own,
    }
}
