// A half of a byte, four bits: what the tower counts in.
ghost use Rattle.std.specs.Prelude.{◌≡◌, ◌<◌};
ghost use Rattle.aes.specs.Byte.{◌⊕◌};
ghost use Rattle.tower.specs.Tower.{high, low, joined};

use std::ops::BitXor;

#[derive(Clone, Copy)]
pub(crate) struct Half {
    pub(crate) value: u8,
    ghost is_half: { value < 16 },
}

impl Half {
    // Both halves of a byte, the higher first.
    pub(crate) fn both(t: u8) -> (Half, Half)
        ensures { (result.0.value ≡ high t) × (result.1.value ≡ low t) }
    {
        (Half { value: t / 16 }, Half { value: t % 16 })
    }

    // The byte whose higher half this is.
    pub(crate) fn joined(self, low: Half) -> u8
        ensures { result ≡ joined self.value low.value }
    {
        16 * self.value + low.value
    }
}

impl BitXor for Half {
    type Output = Half;

    ghost bitxor_gives = { λ a b r. r.value ≡ a.value ⊕ b.value };

    fn bitxor(self, other: Half) -> Half {
        Half {
            value: self.value ^ other.value,
        }
    }
}
