// The recorded plain run: the states of an encryption, each written by the step that makes it to a part that is lent to it.
ghost use Rattle.std.specs.Prelude.{◌≡◌, ◌+◌, ◌*◌, ◌≤◌, ◌<◌, length, get_or};
ghost use Rattle.aes.specs.State.{sub_bytes, shift_rows, mix_columns, add_round_key};
ghost use Rattle.aes.specs.Key.{round_key};
ghost use Rattle.aes.specs.Record.{block, five, plain, plain_record, bytes, Recorded};
ghost use Rattle.aes.specs.Calls.{record_plain_of};
ghost use Rattle.aes.specs.Refusal.{reply};

use crate::reply::Refusal;
use crate::size::Schedule;
use crate::state::{add, block, mix_columns, put, shift_rows};
use crate::substitution::Sbox;

// Writes the states of encrypting the block under the schedule: the block, and five for each round.
pub fn record_plain(schedule: &[u8], input: &[u8], states: &mut [u8]) -> Result<(), Refusal>
    ensures { (reply result, states.new) ≡ record_plain_of schedule.now input.now states.old }
{
    let w = Schedule::of(schedule).ok_or(Refusal::ScheduleLength)?;
    if input.len() != 16 {
        return Err(Refusal::InputLength);
    }
    if states.len() != 80 * w.rounds() + 16 {
        return Err(Refusal::RecordLength);
    }
    let sbox = Sbox::stored();
    recorded(block(input), &w, &sbox, states);
    Ok(())
}

fn recorded(input: [u8; 16], w: &Schedule, sbox: &Sbox, states: &mut [u8])
    requires { length states.old ≡ 80 * w.now.rounds + 16 }
    ensures { states.new ≡ bytes (plain_record w.now.rounds w.now.bytes.now input) }
{
    let mut s = put(input, &mut states[0..16]);
    for r in 0..w.rounds() {
        let a = 80 * r + 16;
        let t = round(s, w, r, sbox, &mut states[a..a + 80]);
        s = t;
    }
}

// The five states of a round. The plain run has nothing to add at the fifth: the state is recorded as it is.
fn round(s: [u8; 16], w: &Schedule, r: usize, sbox: &Sbox, states: &mut [u8]) -> [u8; 16]
    requires { (r < w.now.rounds) × (length states.old ≡ 80) }
    ensures { Recorded (plain w.now.bytes.now) s (five w.now.rounds r) result states.new }
{
    let t = key(s, w, r, &mut states[0..16]);
    let u = boxes(t, sbox, &mut states[16..32]);
    let v = shift(u, &mut states[32..48]);
    let x = fourth(v, w, r, &mut states[48..64]);
    put(x, &mut states[64..80])
}

// What comes after ShiftRows: MixColumns, or the last key.
fn fourth(s: [u8; 16], w: &Schedule, r: usize, part: &mut [u8]) -> [u8; 16]
    requires { (r < w.now.rounds) × (length part.old ≡ 16) }
    ensures { (result ≡ plain w.now.bytes.now (get_or (five w.now.rounds r) 3 block) s) × (part.new ≡ result) }
{
    if r == w.rounds() - 1 {
        return key(s, w, r + 1, part);
    }
    mix(s, part)
}

// The steps: each gives the next state and writes it to the part that it was lent.
fn key(s: [u8; 16], w: &Schedule, r: usize, part: &mut [u8]) -> [u8; 16]
    requires { (r ≤ w.now.rounds) × (length part.old ≡ 16) }
    ensures { (result ≡ add_round_key s (round_key w.now.bytes.now r)) × (part.new ≡ result) }
{
    put(add(s, w.key(r)), part)
}

fn boxes(s: [u8; 16], sbox: &Sbox, part: &mut [u8]) -> [u8; 16]
    requires { length part.old ≡ 16 }
    ensures { (result ≡ sub_bytes s) × (part.new ≡ result) }
{
    put(sbox.sub_bytes(s), part)
}

fn shift(s: [u8; 16], part: &mut [u8]) -> [u8; 16]
    requires { length part.old ≡ 16 }
    ensures { (result ≡ shift_rows s) × (part.new ≡ result) }
{
    put(shift_rows(s), part)
}

fn mix(s: [u8; 16], part: &mut [u8]) -> [u8; 16]
    requires { length part.old ≡ 16 }
    ensures { (result ≡ mix_columns s) × (part.new ≡ result) }
{
    put(mix_columns(s), part)
}
