// The published masks of document 002, and the constants that are made of masks.
ghost use Rattle.std.specs.Prelude.{◌≡◌, ℕ, ◌+◌, ◌*◌, ◌%◌, ◌<◌, length};
ghost use Rattle.masks.specs.Mask.{published, one, twice, mask, covers_of, after_rows, after_columns, in_row, constants, constants_of};
ghost use Rattle.masks.specs.Kinds.{constant_of};
ghost use Rattle.aes.specs.State.{at, state};
ghost use Rattle.aes.specs.Key.{round_key};
ghost use Rattle.aes.specs.Held.{Holds};

use crate::label::Label;
use aes::{add, inv_mix_columns, inv_shift_rows, mix_columns, shift_rows};

const MASKS: [u8; 16] = *b"\
\x00\x0f\x36\x39\x53\x5c\x65\x6a\x95\x9a\xa3\xac\xc6\xc9\xf0\xff";

// Which constants of sixteen labels: an encryption's compensations, or a decryption's corrections after InvShiftRows and after
// InvMixColumns.
#[derive(Clone, Copy)]
pub enum Kind {
    Compensation,
    AfterRows,
    AfterColumns,
}

// M0 to M15.
pub fn published() -> [u8; 16]
    ensures { result ≡ published }
{
    MASKS
}

// The masks twice over, so that sixteen of them lie in a row from any label on.
pub fn twice(masks: [u8; 16]) -> [u8; 32]
    ensures { result ≡ twice masks }
{
    let mut r = [0u8; 32];
    for i in 0..32 {
        r[i] = masks[i % 16];
    }
    r
}

// Mask(l), of masks that lie there twice over: byte 0 has label l, and each byte the label after.
pub fn mask(twice: [u8; 32], l: Label) -> [u8; 16]
    ensures { result ≡ state (λ i. at twice (l.0 % 16 + i)) }
{
    let from = l.read() % 16;
    let mut r = [0u8; 16];
    r.copy_from_slice(&twice[from..from + 16]);
    r
}

// The masks over a state for each label, at the record of offset 0, to the lent place: from each label on sixteen masks in a row. At other
// offsets no row lies in the masks as a whole (`Offsets::covers`).
pub fn first_covers(masks: [u8; 16], r: &mut [u8; 256])
    ensures { r.new ≡ covers_of masks (one 0) }
{
    let masks = twice(masks);
    for n in 0..16 {
        r[16 * n..16 * n + 16].copy_from_slice(&masks[n..n + 16]);
    }
}

// The constants of labels 0 to 15 for any masks, at the record of offset 0, to the lent place. Each is the one of the label four
// before it turned by a column, so four are worked out and the others moved.
pub fn made(kind: Kind, masks: [u8; 16], r: &mut [u8; 256])
    ensures { r.new ≡ constants (constant_of kind) masks (one 0) }
{
    first_four(kind, masks, r);
    for n in 4..16 {
        let y = 16 * n;
        r.copy_within(y - 60..y - 48, y);
        r.copy_within(y - 64..y - 60, y + 12);
    }
}

fn first_four(kind: Kind, masks: [u8; 16], r: &mut [u8; 256])
    ensures { Holds 256 (in_row (λ k. constant_of kind (mask masks (one 0) k)) 4) r.new }
{
    let twice = twice(masks);
    for n in 0..4u8 {
        let c = constant(kind, mask(twice, Label::make(n)));
        let y = 16 * n as usize;
        r[y..y + 16].copy_from_slice(&c);
    }
}

// The constants of masks that lie there for each label, each worked out.
pub fn of_covers(kind: Kind, covers: &[u8; 256], r: &mut [u8; 256])
    ensures { r.new ≡ constants_of (constant_of kind) covers.now }
{
    for n in 0..16 {
        let c = constant(kind, cover(covers, n));
        r[16 * n..16 * n + 16].copy_from_slice(&c);
    }
}

// Both rows of corrections of such masks, in one pass: by kinds they are another fifth of a decryption with another record.
pub fn corrections_of(covers: &[u8; 256], rows: &mut [u8; 256], columns: &mut [u8; 256])
    ensures { (rows.new ≡ constants_of after_rows covers.now) × (columns.new ≡ constants_of after_columns covers.now) }
{
    for n in 0..16 {
        let m = cover(covers, n);
        laid(add(m, inv_shift_rows(m)), &mut rows[16 * n..16 * n + 16]);
        laid(
            add(m, inv_mix_columns(m)),
            &mut columns[16 * n..16 * n + 16],
        );
    }
}

// Sixteen bytes, to their place. By `copy_from_slice` what makes them takes half as many instructions more.
fn laid(c: [u8; 16], part: &mut [u8])
    requires { length part.old ≡ 16 }
    ensures { part.new ≡ c }
{
    for i in 0..16 {
        part[i] = c[i];
    }
}

// The masks of one label.
fn cover(covers: &[u8; 256], n: usize) -> [u8; 16]
    requires { n < 16 }
    ensures { result ≡ round_key covers.now n }
{
    let mut m = [0u8; 16];
    for i in 0..16 {
        m[i] = covers[16 * n + i];
    }
    m
}

fn constant(kind: Kind, m: [u8; 16]) -> [u8; 16]
    ensures { result ≡ constant_of kind m }
{
    match kind {
        Kind::Compensation => add(m, mix_columns(shift_rows(m))),
        Kind::AfterRows => add(m, inv_shift_rows(m)),
        Kind::AfterColumns => add(m, inv_mix_columns(m)),
    }
}
