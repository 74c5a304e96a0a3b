// The change of basis between a byte of FIPS 197's field and one of the tower, by arithmetic: each bit brings its image.
ghost use Rattle.std.specs.Prelude.{◌≡◌};
ghost use Rattle.aes.specs.State.{at};
ghost use Rattle.tower.specs.Tower.{brought, to_tower, from_tower};

pub(crate) fn to_tower(x: u8) -> u8
    ensures { result ≡ to_tower x }
{
    brought(*b"\x01\x5e\x24\x2b\x4e\x97\x44\xd1", x)
}

pub(crate) fn from_tower(x: u8) -> u8
    ensures { result ≡ from_tower x }
{
    brought(*b"\x01\xe0\x5d\xb0\x12\x59\x1d\x8e", x)
}

// The sum of what each bit of x brings, bit after bit as the definition has it.
fn brought(c: [u8; 8], x: u8) -> u8
    ensures { result ≡ brought (at c 0) (at c 1) (at c 2) (at c 3) (at c 4) (at c 5) (at c 6) (at c 7) x }
{
    x % 2 * c[0]
        ^ x / 2 % 2 * c[1]
        ^ x / 4 % 2 * c[2]
        ^ x / 8 % 2 * c[3]
        ^ x / 16 % 2 * c[4]
        ^ x / 32 % 2 * c[5]
        ^ x / 64 % 2 * c[6]
        ^ x / 128 * c[7]
}
