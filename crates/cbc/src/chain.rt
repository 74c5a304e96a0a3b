// CBC over whole blocks, from one lent part into another.
ghost use Rattle.std.specs.Prelude.{◌≡◌, ◌+◌, ◌*◌, ◌≤◌, length, take, drop};
ghost use Rattle.cbc.specs.Cbc.{link, cbc};

use aes::add;

// Both ways are one call, and it is told how many blocks there are, because docs/PROMISES.md promises it so.
pub fn cbc(back: bool, schedule: &[u8], start: [u8; 16], input: &[u8], output: &mut [u8], n: usize)
    requires { (length schedule.now ≡ 240) × (n ≤ 11) × (length input.now ≡ 16 * n) × (length output.old ≡ 16 * n) }
    ensures { output.new ≡ cbc back schedule.now start input.now }
{
    let mut last = start;
    for k in 0..n {
        let a = 16 * k;
        let read = sixteen_at(input, a);
        let made = link(back, schedule, read, last);
        output[a..a + 16].copy_from_slice(&made);
        last = if back { read } else { made };
    }
}

// One block, over the ciphertext before it. It is never refused: the lengths are known, so that unwrap is proved.
fn link(back: bool, schedule: &[u8], block: [u8; 16], last: [u8; 16]) -> [u8; 16]
    requires { length schedule.now ≡ 240 }
    ensures { result ≡ link back schedule.now block last }
{
    let mut r = [0u8; 16];
    if back {
        aes::decrypt(schedule, &block, &mut r).unwrap();
        return add(r, last);
    }
    aes::encrypt(schedule, &add(block, last), &mut r).unwrap();
    r
}

// Sixteen bytes from a place on.
pub fn sixteen_at(lent: &[u8], a: usize) -> [u8; 16]
    requires { (a + 16 ≤ length lent.now) × (length lent.now ≤ 3486) }
    ensures { result ≡ take 16 (drop a lent.now) }
{
    let mut r = [0u8; 16];
    r.copy_from_slice(&lent[a..a + 16]);
    r
}

// Byte by byte, which becomes memcpy: by the method of slices the library would want memmove of the C library too (tools/symbols).
pub fn copy(from: &[u8], to: &mut [u8])
    requires { length to.old ≡ length from.now }
    ensures { to.new ≡ from.now }
{
    for i in 0..from.len() {
        to[i] = from[i];
    }
}
