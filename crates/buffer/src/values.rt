// A and R[i] of a buffer, taken out of it and put back.
ghost use Rattle.std.specs.Prelude.{◌≡◌, ◌++◌, ◌+◌, ◌*◌, ◌≤◌, ◌<◌, length, take, drop};
ghost use Rattle.buffer.specs.Wrap.{counted, value, with_values};

// A | R[i].
pub fn gather(buffer: &[u8], i: usize) -> [u8; 16]
    requires { (0 < i) × (8 * i + 8 ≤ length buffer.now) × (length buffer.now ≤ 264) }
    ensures { result ≡ take 8 buffer.now ++ value i buffer.now }
{
    let a = 8 * i;
    let mut r = [0u8; 16];
    r[..8].copy_from_slice(&buffer[..8]);
    r[8..].copy_from_slice(&buffer[a..a + 8]);
    r
}

// The counter xored to the first eight bytes: below 256 it is all in the last of them.
pub fn counted(mut b: [u8; 16], t: usize) -> [u8; 16]
    requires { t < 256 }
    ensures { result ≡ counted t (take 8 b) ++ drop 8 b }
{
    b[7] ^= t as u8;
    b
}

// Other A and R[i].
pub fn scatter(b: [u8; 16], buffer: &mut [u8], i: usize)
    requires { (0 < i) × (8 * i + 8 ≤ length buffer.old) × (length buffer.old ≤ 264) }
    ensures { buffer.new ≡ with_values i (take 8 b) (drop 8 b) buffer.old }
{
    let a = 8 * i;
    buffer[..8].copy_from_slice(&b[..8]);
    buffer[a..a + 8].copy_from_slice(&b[8..]);
}

// Byte by byte, which becomes memcpy: by the method of slices the library would want memmove of the C library too (tools/symbols).
pub fn copy(from: &[u8], to: &mut [u8])
    requires { length to.old ≡ length from.now }
    ensures { to.new ≡ from.now }
{
    for i in 0..from.len() {
        to[i] = from[i];
    }
}
