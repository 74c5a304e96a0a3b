// Encryption and decryption of one block: CIPHER and INVCIPHER of FIPS 197, of as many rounds as the schedule is for.
ghost use Rattle.std.specs.Prelude.{◌≡◌, ◌+◌, ◌*◌, ◌≤◌, ◌<◌, length};
ghost use Rattle.aes.specs.State.{sub_bytes, inv_sub_bytes, shift_rows, inv_shift_rows, mix_columns, inv_mix_columns, add_round_key};
ghost use Rattle.aes.specs.Key.{round_key};
ghost use Rattle.aes.specs.Cipher.{cipher, inv_cipher};
ghost use Rattle.aes.specs.Calls.{block_of, encrypt_of, decrypt_of};
ghost use Rattle.aes.specs.Refusal.{reply};

use crate::reply::Refusal;
use crate::size::Schedule;
use crate::state::{add, block, inv_shift_rows, mix_columns, put, shift_rows, unmixed};
use crate::substitution::{InvSbox, Sbox};

// Writes what CIPHER makes of the block under the schedule.
pub fn encrypt(schedule: &[u8], input: &[u8], output: &mut [u8]) -> Result<(), Refusal>
    ensures { (reply result, output.new) ≡ encrypt_of schedule.now input.now output.old }
{
    run(schedule, input, output, false)
}

// Writes what INVCIPHER makes of the block under the schedule.
pub fn decrypt(schedule: &[u8], input: &[u8], output: &mut [u8]) -> Result<(), Refusal>
    ensures { (reply result, output.new) ≡ decrypt_of schedule.now input.now output.old }
{
    run(schedule, input, output, true)
}

// The checks, in their order, and the block in one direction or the other.
fn run(schedule: &[u8], input: &[u8], output: &mut [u8], back: bool) -> Result<(), Refusal>
    ensures { (reply result, output.new) ≡ block_of back schedule.now input.now output.old }
{
    let w = Schedule::of(schedule).ok_or(Refusal::ScheduleLength)?;
    if input.len() != 16 {
        return Err(Refusal::InputLength);
    }
    if output.len() != 16 {
        return Err(Refusal::OutputLength);
    }
    let b = block(input);
    if back {
        let t = decrypted(b, &w);
        put(t, output);
    } else {
        let c = encrypted(b, &w);
        put(c, output);
    }
    Ok(())
}

// The directions stay two functions: steps, boxes and keys all come in reverse order, so one of both would choose at every step.
fn encrypted(input: [u8; 16], w: &Schedule) -> [u8; 16]
    ensures { result ≡ cipher w.now.rounds w.now.bytes.now input }
{
    let sbox = Sbox::stored();
    let mut s = add(input, w.key(0));
    for r in 1..w.rounds() {
        // Kept by a name first: Rattle proves no call that lays an array over one that it was given.
        let t = round(s, w, r, &sbox);
        s = t;
    }
    add(sub_shift(s, &sbox), w.key(w.rounds()))
}

fn decrypted(input: [u8; 16], w: &Schedule) -> [u8; 16]
    ensures { result ≡ inv_cipher w.now.rounds w.now.bytes.now input }
{
    let inv_sbox = InvSbox::stored();
    let mut s = add(input, w.key(w.rounds()));
    // Counted down by `.rev()`, `decrypt` took 3 in 100 instructions more.
    for r in 1..w.rounds() {
        let t = inv_round(s, w, w.rounds() - r, &inv_sbox);
        s = t;
    }
    add(inv_shift_sub(s, &inv_sbox), w.key(0))
}

fn round(s: [u8; 16], w: &Schedule, r: usize, sbox: &Sbox) -> [u8; 16]
    requires { r ≤ w.now.rounds }
    ensures { result ≡ add_round_key (mix_columns (shift_rows (sub_bytes s))) (round_key w.now.bytes.now r) }
{
    add(mix_columns(sub_shift(s, sbox)), w.key(r))
}

fn inv_round(s: [u8; 16], w: &Schedule, r: usize, inv_sbox: &InvSbox) -> [u8; 16]
    requires { r ≤ w.now.rounds }
    ensures { result ≡ inv_mix_columns (add_round_key (inv_sub_bytes (inv_shift_rows s)) (round_key w.now.bytes.now r)) }
{
    let t = add(inv_shift_sub(s, inv_sbox), w.key(r));
    unmixed(t)
}

// What whole rounds and the last one share, in each direction.
fn sub_shift(s: [u8; 16], sbox: &Sbox) -> [u8; 16]
    ensures { result ≡ shift_rows (sub_bytes s) }
{
    shift_rows(sbox.sub_bytes(s))
}

fn inv_shift_sub(s: [u8; 16], inv_sbox: &InvSbox) -> [u8; 16]
    ensures { result ≡ inv_sub_bytes (inv_shift_rows s) }
{
    inv_sbox.inv_sub_bytes(inv_shift_rows(s))
}
