// The third masked box: S by inversion in the tower, and the affine map.
ghost use Rattle.std.specs.Prelude.{◌≡◌};
ghost use Rattle.aes.specs.Box.{s_box};
ghost use Rattle.masks.specs.Mask.{published, masked_box};
ghost use Rattle.tower.specs.Tower.{linear};

use crate::inversion::tower_inverse;
use crate::tables;
use masks::constants::published;
use masks::label::Label;

// The box of a label, counted modulo 16, over the published masks. The inverse comes covered by the mask that x was covered by, and what
// then lies over it is exchanged for the next mask by a constant of masks alone.
pub fn tower_box(label: u8, x: u8) -> u8
    ensures { result ≡ masked_box s_box published 1 label x }
{
    let masks = published();
    let changes = tables::changes();
    let l = Label::make(label).read();
    linear(tower_inverse(x, masks[l])) ^ changes[l]
}

// The affine map without its constant. Each bit is the sum of itself and four others, which turns of the byte bring to its place: the
// byte moved up by 0 to 4 bits, and what has left it coming in below.
fn linear(b: u8) -> u8
    ensures { result ≡ linear b }
{
    let w = b as u16;
    let v = w ^ w * 2 ^ w * 4 ^ w * 8 ^ w * 16;
    (v % 256) as u8 ^ (v / 256) as u8
}
