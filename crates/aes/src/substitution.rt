// S and its inverse, each with what its table is: so that neither stands where the other is meant.
ghost use Rattle.std.specs.Prelude.{◌≡◌};
ghost use Rattle.aes.specs.Byte.{table};
ghost use Rattle.aes.specs.Box.{s_box, inv_s_box};
ghost use Rattle.aes.specs.State.{sub_bytes, inv_sub_bytes};

use crate::state::substitute;
use crate::tables::{entry, inv_sbox, sbox};

#[derive(Drop)]
pub(crate) struct Sbox {
    entries: [u8; 256],
    ghost stored: { entries ≡ table s_box 256 },
}

#[derive(Drop)]
pub(crate) struct InvSbox {
    entries: [u8; 256],
    ghost stored: { entries ≡ table inv_s_box 256 },
}

impl Sbox {
    pub(crate) fn stored() -> Sbox {
        Sbox { entries: sbox() }
    }

    pub(crate) fn of(&self, b: u8) -> u8
        ensures { result ≡ s_box b }
    {
        entry(&self.entries, b)
    }

    pub(crate) fn sub_bytes(&self, s: [u8; 16]) -> [u8; 16]
        ensures { result ≡ sub_bytes s }
    {
        substitute(s, &self.entries)
    }
}

impl InvSbox {
    pub(crate) fn stored() -> InvSbox {
        InvSbox {
            entries: inv_sbox(),
        }
    }

    pub(crate) fn inv_sub_bytes(&self, s: [u8; 16]) -> [u8; 16]
        ensures { result ≡ inv_sub_bytes s }
    {
        substitute(s, &self.entries)
    }
}
