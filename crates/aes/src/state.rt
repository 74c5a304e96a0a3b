// The transformations of a state by value: sixteen bytes, column by column.
ghost use Rattle.std.specs.Prelude.{◌≡◌, ◌+◌, ◌*◌, ◌≤◌, ◌<◌, length};
ghost use Rattle.aes.specs.State.{shift_rows, inv_shift_rows, mix_columns, inv_mix_columns, add_round_key};
ghost use Rattle.aes.specs.Lent.{moved, substituted};

use crate::tables::entry;
use crate::word::{column, inv_mix_column, joined, mix_column};

// The sum of two states, byte by byte: AddRoundKey, and the covering by a mask.
pub fn add(a: [u8; 16], b: [u8; 16]) -> [u8; 16]
    ensures { result ≡ add_round_key a b }
{
    joined(
        column(a, 0) ^ column(b, 0),
        column(a, 1) ^ column(b, 1),
        column(a, 2) ^ column(b, 2),
        column(a, 3) ^ column(b, 3),
    )
}

// Each byte by the lent box.
pub(crate) fn substitute(s: [u8; 16], lent: &[u8; 256]) -> [u8; 16]
    ensures { result ≡ substituted lent.now s }
{
    let mut r = [0u8; 16];
    for i in 0..16 {
        r[i] = entry(lent, s[i]);
    }
    r
}

// Row r moves left by r: byte i comes from 4 (i % 4) places ahead, which is place 5 i modulo 16.
pub fn shift_rows(s: [u8; 16]) -> [u8; 16]
    ensures { result ≡ shift_rows s }
{
    moved(s, 5)
}

// Row r moves right by r: byte i comes from as many places behind, which is place 13 i modulo 16.
pub fn inv_shift_rows(s: [u8; 16]) -> [u8; 16]
    ensures { result ≡ inv_shift_rows s }
{
    moved(s, 13)
}

fn moved(s: [u8; 16], step: usize) -> [u8; 16]
    requires { step < 16 }
    ensures { result ≡ moved step s }
{
    let mut r = [0u8; 16];
    for i in 0..16 {
        r[i] = s[step * i % 16];
    }
    r
}

pub fn mix_columns(s: [u8; 16]) -> [u8; 16]
    ensures { result ≡ mix_columns s }
{
    joined(
        mix_column(column(s, 0)),
        mix_column(column(s, 1)),
        mix_column(column(s, 2)),
        mix_column(column(s, 3)),
    )
}

pub fn inv_mix_columns(s: [u8; 16]) -> [u8; 16]
    ensures { result ≡ inv_mix_columns s }
{
    unmixed(s)
}

// The same, laid into the rack's engine: a function that is called from two places becomes a part of neither, and then the state goes
// through memory, where `decrypt` took a third more time.
#[inline]
pub(crate) fn unmixed(s: [u8; 16]) -> [u8; 16]
    ensures { result ≡ inv_mix_columns s }
{
    joined(
        inv_mix_column(column(s, 0)),
        inv_mix_column(column(s, 1)),
        inv_mix_column(column(s, 2)),
        inv_mix_column(column(s, 3)),
    )
}

// A lent block, by value, and a state written to one and given on.
pub(crate) fn block(lent: &[u8]) -> [u8; 16]
    requires { length lent.now ≡ 16 }
    ensures { result ≡ lent.now }
{
    let mut r = [0u8; 16];
    r.copy_from_slice(lent);
    r
}

pub(crate) fn put(s: [u8; 16], lent: &mut [u8]) -> [u8; 16]
    requires { length lent.old ≡ 16 }
    ensures { (result ≡ s) × (lent.new ≡ result) }
{
    lent.copy_from_slice(&s);
    s
}
