// Masked decryption, made of the steps alone: recorded, where each step is lent its part of the record and fills it, and unrecorded.
ghost use Rattle.std.specs.Prelude.{◌≡◌, List, ℕ, ◌+◌, ◌-◌, ◌*◌, ◌/◌, ◌%◌, ◌<◌, ◌≤◌, length};
ghost use Rattle.aes.specs.State.{inv_shift_rows, inv_mix_columns};
ghost use Rattle.aes.specs.Key.{round_key};
ghost use Rattle.aes.specs.Record.{bytes};
ghost use Rattle.masks.specs.Mask.{◌⊞◌, advanced};
ghost use Rattle.masks.specs.Order.{boxed_by, boxes_at};
ghost use Rattle.lent.specs.Sixteen.{sixteen};
ghost use Rattle.lent.specs.Started.{offsets_of};
ghost use Rattle.runs.specs.Back.{masked_back_record, masked_inv_cipher};
ghost use Rattle.runs.specs.Lent.{back_point_after};
ghost use Rattle.runs.specs.Steps.{Behind, back};

use crate::round::Round;
use crate::steps::{
    Covered, add_key, correct_columns, correct_rows, cover, cover_first, inv_mix_columns,
    inv_shift_rows, inverse_boxes, uncover_plain,
};
use lent::given::Block;
use lent::tables::{Decryption, Schedule};
use masks::label::Label;

// The finished block alone, after n rounds.
pub fn opened(block: Block, w: &Schedule, t: &Decryption, first: Label, output: &mut [u8])
    requires { length output.old ≡ 16 }
    ensures { let m = t.now.laid.masks in output.new ≡ masked_inv_cipher w.now.rounds m.bytes (advanced (offsets_of m) first.0) m.step w.now.bytes.now block.0 }
{
    let covered = cover(block, &t.laid, first, Round::last(w.rounds()));
    let mut s = add_key(covered, w);
    for _ in 1..w.rounds() {
        let u = half(s, t);
        s = rest(u, w, t);
    }
    let u = half(s, t);
    let v = add_key(u, w);
    uncover_plain(v, &t.laid, output);
}

// The states of a decryption of n rounds, 6 n + 1 of them.
pub fn opened_recorded(block: Block, w: &Schedule, t: &Decryption, first: Label, states: &mut [u8])
    requires { length states.old ≡ 96 * w.now.rounds + 16 }
    ensures { let m = t.now.laid.masks in states.new ≡ bytes (masked_back_record w.now.rounds m.bytes (advanced (offsets_of m) first.0) m.step w.now.bytes.now block.0) }
{
    let mut s = cover_first(
        block,
        &t.laid,
        first,
        Round::last(w.rounds()),
        &mut states[0..16],
    );
    let last = 6 * w.rounds() - 1;
    for m in 0..last {
        let a = 16 * m + 16;
        let e = a + 16;
        s = point(s, w, t, m, &mut states[a..e]);
    }
    let a = 16 * last + 16;
    let e = a + 16;
    uncover_plain(s, &t.laid, &mut states[a..e]);
}

// The step at point m after the covered block, which fills the part that it is lent: six to a round. The last point uncovers, and is apart.
fn point(s: Covered, w: &Schedule, t: &Decryption, m: usize, part: &mut [u8]) -> Covered
    requires { (m + 1 < 6 * w.now.rounds) × (s.round.0 + (m + 2) / 6 ≡ w.now.rounds) × (length part.old ≡ 16) }
    ensures { ((o : ℕ) (end : List ℕ) → Behind o w.now t.now s → (result.bytes ≡ back w.now t.now o end (back_point_after m) s.bytes) × Behind o w.now t.now result) × (result.round.0 + (m + 3) / 6 ≡ w.now.rounds) × (part.new ≡ result.bytes) }
{
    let next = step(s, w, t, m);
    next.keep(part);
    next
}

// What the step at point m makes of the state.
fn step(s: Covered, w: &Schedule, t: &Decryption, m: usize) -> Covered
    requires { (m + 1 < 6 * w.now.rounds) × (s.round.0 + (m + 2) / 6 ≡ w.now.rounds) }
    ensures { ((o : ℕ) (end : List ℕ) → Behind o w.now t.now s → (result.bytes ≡ back w.now t.now o end (back_point_after m) s.bytes) × Behind o w.now t.now result) × (result.round.0 + (m + 3) / 6 ≡ w.now.rounds) }
{
    match m % 6 {
        1 => inv_shift_rows(s),
        2 => correct_rows(s, t),
        3 => inverse_boxes(s, t),
        4 => add_key(s, w),
        5 => inv_mix_columns(s),
        _ => {
            if m == 0 {
                return add_key(s, w);
            }
            correct_columns(s, t)
        }
    }
}

// What every round begins with: InvShiftRows, its correction and the inverse boxes. Named at two places, the compiler would keep it a call,
// which costs a block two hundred instructions.
#[inline(always)]
fn half(s: Covered, t: &Decryption) -> Covered
    requires { 0 < s.round.0 }
    ensures { result ≡ record { label = record { 0 = (s.label.0 + t.now.laid.masks.step) % 16 }; round = record { 0 = s.round.0 - 1 }; bytes = boxed_by t.now.boxes.now (boxes_at (offsets_of t.now.laid.masks) s.label.0) (inv_shift_rows s.bytes ⊞ sixteen t.now.rows.now (s.label.0 % 16)) } }
{
    inverse_boxes(correct_rows(inv_shift_rows(s), t), t)
}

// What a whole round ends with: the key, InvMixColumns and its correction.
fn rest(s: Covered, w: &Schedule, t: &Decryption) -> Covered
    requires { s.round.0 ≤ w.now.rounds }
    ensures { result ≡ record s { bytes = inv_mix_columns (s.bytes ⊞ round_key w.now.bytes.now s.round.0) ⊞ sixteen t.now.columns.now (s.label.0 % 16) } }
{
    correct_columns(inv_mix_columns(add_key(s, w)), t)
}
