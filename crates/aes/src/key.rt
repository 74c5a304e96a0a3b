// Key expansion: KEYEXPANSION of FIPS 197 for keys of four, six and eight words.
ghost use Rattle.std.specs.Prelude.{◌≡◌, [], ◌∷◌, ◌+◌, ◌*◌, ◌≤◌, ◌<◌, length};
ghost use Rattle.aes.specs.Byte.{table};
ghost use Rattle.aes.specs.Field.{raise};
ghost use Rattle.aes.specs.Key.{word_at, sub_word, temp, key_expansion};
ghost use Rattle.aes.specs.Word.{word_of};
ghost use Rattle.aes.specs.Held.{Holds};
ghost use Rattle.aes.specs.Calls.{expand_key_of};
ghost use Rattle.aes.specs.Reply.{answer, is_schedule_of};
ghost use Rattle.aes.specs.Refusal.{reply};

use crate::reply::Refusal;
use crate::substitution::Sbox;
use crate::tables::round_constants;
use crate::word::{bytes, rot_word, word};

// Writes the schedule of a key. It is made by value first, and then written (docs/TRACE.md, O3).
pub fn expand_key(key: &[u8], schedule: &mut [u8]) -> Result<(), Refusal>
    ensures { (reply result, schedule.new) ≡ expand_key_of key.now schedule.old }
{
    match key.len() {
        16 => by_words(key, 4, schedule),
        24 => by_words(key, 6, schedule),
        32 => by_words(key, 8, schedule),
        _ => Err(Refusal::KeyLength),
    }
}

// The same for a key of nk words. Each call names a number, so that the compiler knows them all, and divides bytes by bytes.
fn by_words(key: &[u8], nk: usize, schedule: &mut [u8]) -> Result<(), Refusal>
    requires { (4 ≤ nk) × (nk ≤ 8) × (length key.now ≡ 4 * nk) }
    ensures { (reply result, schedule.new) ≡ answer (is_schedule_of key.now schedule.old ∷ []) schedule.old (key_expansion key.now) }
{
    let size = 16 * nk + 112;
    if schedule.len() != size {
        return Err(Refusal::ScheduleLength);
    }
    let w = expanded(key, nk);
    schedule.copy_from_slice(&w[..size]);
    Ok(())
}

// The schedule, and zeros behind it. Words are numbers of 32 bits, and the one before is kept: nothing waits for what was just written.
fn expanded(key: &[u8], nk: usize) -> [u8; 240]
    requires { (4 ≤ nk) × (nk ≤ 8) × (length key.now ≡ 4 * nk) }
    ensures { Holds 240 (key_expansion key.now) result }
{
    let sbox = Sbox::stored();
    let constants = round_constants();
    let mut w = start(key);
    let mut before = word_at(&w, nk - 1);
    for i in nk..4 * nk + 28 {
        let t = temp(before, i, nk, &sbox, &constants);
        before = word_at(&w, i - nk) ^ t;
        put_word(before, &mut w[4 * i..4 * i + 4]);
    }
    w
}

// The schedule's first words are the key.
fn start(key: &[u8]) -> [u8; 240]
    requires { length key.now ≤ 32 }
    ensures { Holds 240 key.now result }
{
    let mut w = [0u8; 240];
    w[..key.len()].copy_from_slice(key);
    w
}

// A word in its place. `copy_from_slice` tests whether so few bytes overlap: `expand_key` took half as many instructions more.
fn put_word(x: u32, lent: &mut [u8])
    requires { length lent.old ≡ 4 }
    ensures { lent.new ≡ word_of x }
{
    let b = bytes(x);
    for i in 0..4 {
        lent[i] = b[i];
    }
}

fn word_at(w: &[u8; 240], i: usize) -> u32
    requires { i < 60 }
    ensures { word_of result ≡ word_at w.now i }
{
    let a = 4 * i;
    word(w[a], w[a + 1], w[a + 2], w[a + 3])
}

// Every nk-th word is turned, substituted and given a round constant; of a key of eight words the fourth after it is substituted too.
fn temp(before: u32, i: usize, nk: usize, sbox: &Sbox, constants: &[u8; 10]) -> u32
    requires { (4 ≤ nk) × (nk ≤ i) × (i < 4 * nk + 28) × (constants.now ≡ table (raise 0x02) 10) }
    ensures { word_of result ≡ temp nk (word_of before) i }
{
    if i % nk == 0 {
        return sub_word(rot_word(before), sbox) ^ word(constants[i / nk - 1], 0, 0, 0);
    }
    if nk < 7 {
        return before;
    }
    if i % nk == 4 {
        return sub_word(before, sbox);
    }
    before
}

fn sub_word(x: u32, sbox: &Sbox) -> u32
    ensures { word_of result ≡ sub_word (word_of x) }
{
    let a = bytes(x);
    word(sbox.of(a[0]), sbox.of(a[1]), sbox.of(a[2]), sbox.of(a[3]))
}
