// The report of a mask table: how often the patterns of three bits show over the sixteen offsets, in each covered row of the mask table.
ghost use Rattle.std.specs.Prelude.{◌≡◌, ◌<◌};
ghost use Rattle.aes.specs.Refusal.{reply, value};
ghost use Rattle.beside.specs.Report.{inside, values_of, mixed_over, counts_of, mask_count_of};

use crate::fit::counted;
use aes::reply::Refusal;
use aes::{mix_columns, shift_rows};
use masks::constants::{mask, twice};
use masks::label::Label;

// In how many of the sixteen offsets three bits of a byte show a pattern.
pub fn mask_count(
    masks: &[u8],
    row: u8,
    byte: u8,
    low: u8,
    middle: u8,
    high: u8,
    pattern: u8,
) -> Result<u8, Refusal>
    ensures { (reply result, value result) ≡ mask_count_of masks.now row byte low middle high pattern }
{
    let masks = masks.as_array::<16>().ok_or(Refusal::MasksLength)?;
    let counts = counts(*masks, row, byte, low, middle, high);
    Ok(counts.get(pattern as usize).copied().unwrap_or(0))
}

// The eight counts over the sixteen offsets, of patterns 000 to 111, the highest bit first; zeros where there is no such row, byte or
// triple.
pub(crate) fn counts(masks: [u8; 16], row: u8, byte: u8, x: u8, y: u8, z: u8) -> [u8; 8]
    ensures { result ≡ counts_of masks row byte x y z }
{
    if !inside(row, byte, x, y, z) {
        return [0u8; 8];
    }
    counted(&values(masks, row, byte), x, y, z).to_le_bytes()
}

// Whether there is such a row, byte and triple of bits that rise.
fn inside(row: u8, byte: u8, x: u8, y: u8, z: u8) -> bool
    ensures { result ≡ inside row byte x y z }
{
    matches!(row, 1..=7) && byte <= 15 && x < y && y < z && z <= 7
}

// The masks that lie over a byte in a row at the sixteen offsets, in an order that begins with another offset from row to row: all
// sixteen masks, except after MixColumns.
fn values(masks: [u8; 16], row: u8, byte: u8) -> [u8; 16]
    requires { byte < 16 }
    ensures { result ≡ values_of masks row byte }
{
    if row != 5 {
        return masks;
    }
    mixed(masks, byte as usize)
}

fn mixed(masks: [u8; 16], byte: usize) -> [u8; 16]
    requires { byte < 16 }
    ensures { result ≡ mixed_over masks byte }
{
    let twice = twice(masks);
    let mut r = [0u8; 16];
    for n in 0..16 {
        let m = mix_columns(shift_rows(mask(twice, Label::make(n as u8))));
        r[n] = m[byte];
    }
    r
}
