// A column of a state as a word of 32 bits, its first byte lowest: four bytes are added, turned or doubled at once.
ghost use Rattle.std.specs.Prelude.{◌≡◌, [], ◌∷◌, ◌++◌, ◌<◌};
ghost use Rattle.aes.specs.Key.{word_at, rot_word};
ghost use Rattle.aes.specs.Word.{word_of, doubled, matrix};

// Column c of a state.
pub(crate) fn column(s: [u8; 16], c: usize) -> u32
    requires { c < 4 }
    ensures { word_of result ≡ word_at s c }
{
    let i = 4 * c;
    word(s[i], s[i + 1], s[i + 2], s[i + 3])
}

pub(crate) fn word(a: u8, b: u8, c: u8, d: u8) -> u32
    ensures { word_of result ≡ a ∷ b ∷ c ∷ d ∷ [] }
{
    ((d as u32 * 256 + c as u32) * 256 + b as u32) * 256 + a as u32
}

// The state of four columns.
pub(crate) fn joined(a: u32, b: u32, c: u32, d: u32) -> [u8; 16]
    ensures { result ≡ word_of a ++ word_of b ++ word_of c ++ word_of d }
{
    let p = bytes(a);
    let q = bytes(b);
    let r = bytes(c);
    let s = bytes(d);
    [
        p[0], p[1], p[2], p[3], q[0], q[1], q[2], q[3], r[0], r[1], r[2], r[3], s[0], s[1], s[2],
        s[3],
    ]
}

pub(crate) fn bytes(x: u32) -> [u8; 4]
    ensures { result ≡ word_of x }
{
    [
        (x % 256) as u8,
        ((x >> 8) % 256) as u8,
        ((x >> 16) % 256) as u8,
        ((x >> 24) % 256) as u8,
    ]
}

// A column times the matrix of MixColumns. The first byte of a, b, c, d becomes b + (c + d) + 2 (a + b).
pub(crate) fn mix_column(x: u32) -> u32
    ensures { word_of result ≡ matrix 2 3 1 1 (word_of x) }
{
    let r = rot_word(x);
    let y = x ^ r;
    r ^ rot_word(rot_word(y)) ^ double(y)
}

// A column times the inverse matrix: to each byte, four times its sum with the byte opposite is added, and the column mixed.
pub(crate) fn inv_mix_column(x: u32) -> u32
    ensures { word_of result ≡ matrix 14 11 13 9 (word_of x) }
{
    let y = x ^ rot_word(rot_word(x));
    mix_column(x ^ fourfold(y))
}

pub(crate) fn rot_word(x: u32) -> u32
    ensures { word_of result ≡ rot_word (word_of x) }
{
    (x >> 8) + (x << 24)
}

// XTIMES of four bytes: the bits of each move up by one, and 1b is added where its bit 7 was set. No branch depends on them.
fn double(x: u32) -> u32
    ensures { word_of result ≡ doubled (word_of x) }
{
    ((x & 0x7f7f7f7f) << 1) ^ (x >> 7 & 0x01010101) * 0x1b
}

// The same twice, at once: bit 7 leaves its byte at the first doubling, and bit 6 at the second.
fn fourfold(x: u32) -> u32
    ensures { word_of result ≡ doubled (doubled (word_of x)) }
{
    ((x & 0x3f3f3f3f) << 2) ^ (x >> 7 & 0x01010101) * 0x36 ^ (x >> 6 & 0x01010101) * 0x1b
}
