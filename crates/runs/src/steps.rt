// The steps of every masked run, one for each kind of recorded point; every key is added by one, and so is every compensation and
// correction. Each takes a state as it is covered, and gives the next. `cover` and `cover_first` alone take the bare block, and
// `uncover` and `uncover_plain` alone give no state: the finished block stands in the part that they are lent. A step has a function of
// its own even where two are alike, since tools/steps follows each by its name, and every call to a function that it names.
ghost use Rattle.std.specs.Prelude.{◌≡◌, ◌+◌, ◌-◌, ◌%◌, ◌<◌, ◌≤◌, length};
ghost use Rattle.aes.specs.State.{shift_rows, mix_columns, inv_shift_rows, inv_mix_columns};
ghost use Rattle.aes.specs.Key.{round_key};
ghost use Rattle.masks.specs.Mask.{◌⊞◌, mask};
ghost use Rattle.masks.specs.Order.{boxed_by, boxes_at};
ghost use Rattle.lent.specs.Sixteen.{sixteen};
ghost use Rattle.lent.specs.Started.{offsets_of};

use crate::blocks::keep;
use crate::round::Round;
use aes::add;
use lent::blocks::sixteen;
use lent::given::Block;
use lent::tables::{Decryption, Encryption, Laid, Schedule};
use masks::label::Label;

// A state as it is covered, with the label of its masks and its round, whose key comes next: boxes count it on, and in a decryption
// back. This file alone reads and makes its bytes, advances its label and counts its rounds.
#[derive(Clone, Copy)]
pub(crate) struct Covered {
    label: Label,
    round: Round,
    bytes: [u8; 16],
}

impl Covered {
    // The next state, where neither label nor round are counted.
    fn with(self, bytes: [u8; 16]) -> Covered
        ensures { result ≡ record self { bytes = bytes } }
    {
        Covered {
            label: self.label,
            round: self.round,
            bytes: bytes,
        }
    }

    // The state, written to its part of a record.
    pub(crate) fn keep(self, part: &mut [u8])
        requires { length part.old ≡ 16 }
        ensures { part.new ≡ self.bytes }
    {
        keep(self.bytes, part);
    }
}

pub(crate) fn cover(block: Block, laid: &Laid, first: Label, round: Round) -> Covered
    ensures { result ≡ record { label = first; round = round; bytes = block.0 ⊞ mask laid.now.masks.bytes (offsets_of laid.now.masks) first.0 } }
{
    Covered {
        label: first,
        round: round,
        bytes: block.under(laid.masks, laid.covers, first),
    }
}

// The same, written to the first part of a record.
pub(crate) fn cover_first(
    block: Block,
    laid: &Laid,
    first: Label,
    round: Round,
    part: &mut [u8],
) -> Covered
    requires { length part.old ≡ 16 }
    ensures { (result ≡ record { label = first; round = round; bytes = block.0 ⊞ mask laid.now.masks.bytes (offsets_of laid.now.masks) first.0 }) × (part.new ≡ result.bytes) }
{
    let s = cover(block, laid, first, round);
    s.keep(part);
    s
}

pub(crate) fn add_key(s: Covered, w: &Schedule) -> Covered
    requires { s.round.0 ≤ w.now.rounds }
    ensures { result ≡ record s { bytes = s.bytes ⊞ round_key w.now.bytes.now s.round.0 } }
{
    s.with(add(s.bytes, w.key(s.round.read())))
}

// Byte i by the box over it. By the step of the masks the label then advances.
pub(crate) fn boxes(s: Covered, t: &Encryption) -> Covered
    requires { s.round.0 < 14 }
    ensures { result ≡ record { label = record { 0 = (s.label.0 + t.now.laid.masks.step) % 16 }; round = record { 0 = s.round.0 + 1 }; bytes = boxed_by t.now.boxes.now (boxes_at (offsets_of t.now.laid.masks) s.label.0) s.bytes } }
{
    answered(s, &t.laid, t.boxes, s.round.next())
}

// The same in a decryption, whose boxes are those of the inverse of S.
pub(crate) fn inverse_boxes(s: Covered, t: &Decryption) -> Covered
    requires { 0 < s.round.0 }
    ensures { result ≡ record { label = record { 0 = (s.label.0 + t.now.laid.masks.step) % 16 }; round = record { 0 = s.round.0 - 1 }; bytes = boxed_by t.now.boxes.now (boxes_at (offsets_of t.now.laid.masks) s.label.0) s.bytes } }
{
    answered(s, &t.laid, t.boxes, s.round.previous())
}

// What the boxes answer, with its label and the round that comes next.
fn answered(s: Covered, laid: &Laid, boxes: &[u8; 4096], next: Round) -> Covered
    ensures { result ≡ record { label = record { 0 = (s.label.0 + laid.now.masks.step) % 16 }; round = next; bytes = boxed_by boxes.now (boxes_at (offsets_of laid.now.masks) s.label.0) s.bytes } }
{
    let l = s.label;
    let m = laid.masks.advanced(l);
    Covered {
        label: m,
        round: next,
        bytes: laid.answers(s.bytes, boxes, l),
    }
}

pub(crate) fn shift_rows(s: Covered) -> Covered
    ensures { result ≡ record s { bytes = shift_rows s.bytes } }
{
    s.with(aes::shift_rows(s.bytes))
}

pub(crate) fn mix_columns(s: Covered) -> Covered
    ensures { result ≡ record s { bytes = mix_columns s.bytes } }
{
    s.with(aes::mix_columns(s.bytes))
}

pub(crate) fn inv_shift_rows(s: Covered) -> Covered
    ensures { result ≡ record s { bytes = inv_shift_rows s.bytes } }
{
    s.with(aes::inv_shift_rows(s.bytes))
}

pub(crate) fn inv_mix_columns(s: Covered) -> Covered
    ensures { result ≡ record s { bytes = inv_mix_columns s.bytes } }
{
    s.with(aes::inv_mix_columns(s.bytes))
}

// A compensation of the label, and in a decryption the correction after InvShiftRows and the one after InvMixColumns.
pub(crate) fn compensate(s: Covered, t: &Encryption) -> Covered
    ensures { result ≡ record s { bytes = s.bytes ⊞ sixteen t.now.compensations.now (s.label.0 % 16) } }
{
    constant_added(s, t.compensations)
}

pub(crate) fn correct_rows(s: Covered, t: &Decryption) -> Covered
    ensures { result ≡ record s { bytes = s.bytes ⊞ sixteen t.now.rows.now (s.label.0 % 16) } }
{
    constant_added(s, t.rows)
}

pub(crate) fn correct_columns(s: Covered, t: &Decryption) -> Covered
    ensures { result ≡ record s { bytes = s.bytes ⊞ sixteen t.now.columns.now (s.label.0 % 16) } }
{
    constant_added(s, t.columns)
}

fn constant_added(s: Covered, constants: &[u8; 256]) -> Covered
    ensures { result ≡ record s { bytes = s.bytes ⊞ sixteen constants.now (s.label.0 % 16) } }
{
    let l = s.label;
    s.with(add(s.bytes, sixteen(constants, l.read() % 16)))
}

// After the last round alone: no key of the schedule is left.
pub(crate) fn uncover(s: Covered, w: &Schedule, laid: &Laid, part: &mut [u8])
    requires { (s.round.0 ≡ w.now.rounds) × (length part.old ≡ 16) }
    ensures { part.new ≡ s.bytes ⊞ shift_rows (mask laid.now.masks.bytes (offsets_of laid.now.masks) s.label.0) }
{
    keep(add(s.bytes, aes::shift_rows(laid.mask(s.label))), part);
}

// The same after the last round of a decryption, whose mask lies on the state as it is.
pub(crate) fn uncover_plain(s: Covered, laid: &Laid, part: &mut [u8])
    requires { (s.round.0 ≡ 0) × (length part.old ≡ 16) }
    ensures { part.new ≡ s.bytes ⊞ mask laid.now.masks.bytes (offsets_of laid.now.masks) s.label.0 }
{
    keep(add(s.bytes, laid.mask(s.label)), part);
}
