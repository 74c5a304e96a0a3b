// Sixteen bytes of a lent buffer as a value.
ghost use Rattle.std.specs.Prelude.{◌≡◌, ◌+◌, ◌*◌, ◌≤◌, ◌<◌, length};
ghost use Rattle.lent.specs.Sixteen.{sixteen};

// The sixteen bytes of number n in a row of them. Byte by byte, so that tools/memory sees who reads a table (docs/MEMORY.md).
pub fn sixteen(lent: &[u8], n: usize) -> [u8; 16]
    requires { (n < 16) × (16 * n + 16 ≤ length lent.now) }
    ensures { result ≡ sixteen lent.now n }
{
    let mut r = [0u8; 16];
    for i in 0..16 {
        r[i] = lent[16 * n + i];
    }
    r
}
