// Masked runs, made of the steps alone: recorded, where each step is lent its part of the record and fills it, and unrecorded.
ghost use Rattle.std.specs.Prelude.{◌≡◌, List, ℕ, ◌+◌, ◌*◌, ◌/◌, ◌%◌, ◌<◌, length};
ghost use Rattle.aes.specs.State.{shift_rows, mix_columns};
ghost use Rattle.aes.specs.Key.{round_key};
ghost use Rattle.aes.specs.Record.{bytes};
ghost use Rattle.masks.specs.Mask.{◌⊞◌, advanced};
ghost use Rattle.masks.specs.Order.{boxed_by, boxes_at};
ghost use Rattle.lent.specs.Sixteen.{sixteen};
ghost use Rattle.lent.specs.Started.{offsets_of};
ghost use Rattle.runs.specs.Run.{masked_record, masked_cipher};
ghost use Rattle.runs.specs.Lent.{point_after};
ghost use Rattle.runs.specs.Steps.{Forth, forth};

use crate::round::Round;
use crate::steps::{
    Covered, add_key, boxes, compensate, cover, cover_first, mix_columns, shift_rows, uncover,
};
use lent::given::Block;
use lent::tables::{Encryption, Schedule};
use masks::label::Label;

// The states of n rounds, 5 n + 1 of them.
pub fn recorded(block: Block, w: &Schedule, t: &Encryption, first: Label, states: &mut [u8])
    requires { length states.old ≡ 80 * w.now.rounds + 16 }
    ensures { let m = t.now.laid.masks in states.new ≡ bytes (masked_record w.now.rounds m.bytes (advanced (offsets_of m) first.0) m.step w.now.bytes.now block.0) }
{
    let mut s = cover_first(block, &t.laid, first, Round::FIRST, &mut states[0..16]);
    let last = 5 * w.rounds() - 1;
    for m in 0..last {
        let a = 16 * m + 16;
        let e = a + 16;
        s = point(s, w, t, m, &mut states[a..e]);
    }
    let a = 16 * last + 16;
    let e = a + 16;
    uncover(s, w, &t.laid, &mut states[a..e]);
}

// The finished block alone, after n rounds.
pub fn unrecorded(block: Block, w: &Schedule, t: &Encryption, first: Label, output: &mut [u8])
    requires { length output.old ≡ 16 }
    ensures { let m = t.now.laid.masks in output.new ≡ masked_cipher w.now.rounds m.bytes (advanced (offsets_of m) first.0) m.step w.now.bytes.now block.0 }
{
    let mut s = cover(block, &t.laid, first, Round::FIRST);
    for _ in 1..w.rounds() {
        let u = half(s, w, t);
        s = rest(u, t);
    }
    let u = half(s, w, t);
    let v = add_key(u, w);
    uncover(v, w, &t.laid, output);
}

// The step at point m after the covered block, which fills the part that it is lent: five to a round, of which the last is closed. The last
// point uncovers, and is apart.
fn point(s: Covered, w: &Schedule, t: &Encryption, m: usize, part: &mut [u8]) -> Covered
    requires { (m + 1 < 5 * w.now.rounds) × (s.round.0 ≡ (m + 3) / 5) × (length part.old ≡ 16) }
    ensures { ((o : ℕ) (end : List ℕ) → Forth o t.now s → (result.bytes ≡ forth w.now t.now o end (point_after w.now.rounds m) s.bytes) × Forth o t.now result) × (result.round.0 ≡ (m + 4) / 5) × (part.new ≡ result.bytes) }
{
    let next = step(s, w, t, m);
    next.keep(part);
    next
}

// What the step at point m makes of the state.
fn step(s: Covered, w: &Schedule, t: &Encryption, m: usize) -> Covered
    requires { (m + 1 < 5 * w.now.rounds) × (s.round.0 ≡ (m + 3) / 5) }
    ensures { ((o : ℕ) (end : List ℕ) → Forth o t.now s → (result.bytes ≡ forth w.now t.now o end (point_after w.now.rounds m) s.bytes) × Forth o t.now result) × (result.round.0 ≡ (m + 4) / 5) }
{
    match m % 5 {
        0 => add_key(s, w),
        1 => boxes(s, t),
        2 => shift_rows(s),
        3 => {
            if m + 2 == 5 * w.rounds() {
                return add_key(s, w);
            }
            mix_columns(s)
        }
        _ => compensate(s, t),
    }
}

// What every round begins with: key, boxes and ShiftRows.
fn half(s: Covered, w: &Schedule, t: &Encryption) -> Covered
    requires { s.round.0 < w.now.rounds }
    ensures { result ≡ record { label = record { 0 = (s.label.0 + t.now.laid.masks.step) % 16 }; round = record { 0 = s.round.0 + 1 }; bytes = shift_rows (boxed_by t.now.boxes.now (boxes_at (offsets_of t.now.laid.masks) s.label.0) (s.bytes ⊞ round_key w.now.bytes.now s.round.0)) } }
{
    shift_rows(boxes(add_key(s, w), t))
}

// What a whole round ends with: MixColumns and compensation.
fn rest(s: Covered, t: &Encryption) -> Covered
    ensures { result ≡ record s { bytes = mix_columns s.bytes ⊞ sixteen t.now.compensations.now (s.label.0 % 16) } }
{
    compensate(mix_columns(s), t)
}
