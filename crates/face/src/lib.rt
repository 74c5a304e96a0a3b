// The C face: each public call of the two engines under its C name, with the call's own promise. A slice is a pointer and then a
// size_t there; a reply number with a value beside it is one number, number * 256 + value.
#![tactic(auto)]

ghost use Rattle.std.specs.Prelude.{◌≡◌};
ghost use Rattle.aes.specs.Field.{◌•◌, inverse};
ghost use Rattle.aes.specs.Box.{s_box};
ghost use Rattle.aes.specs.Refusal.{reply, value};
ghost use Rattle.aes.specs.Calls.{expand_key_of, encrypt_of, decrypt_of, record_plain_of, power_of, logarithm_of};
ghost use Rattle.masked.specs.Calls.{encrypt_published_of, encrypt_blocks_of, encrypt_masked_of, record_masked_of, decrypt_published_of, decrypt_masked_of, record_masked_decryption_of};
ghost use Rattle.masks.specs.Mask.{published, masked_box};
ghost use Rattle.masks.specs.Sheet.{read_sheet_of, write_sheet_of};
ghost use Rattle.beside.specs.Fitness.{fitness_of};
ghost use Rattle.beside.specs.Report.{mask_count_of};
ghost use Rattle.beside.specs.Inversion.{masked_inverse};
ghost use Rattle.beside.specs.Stored.{convert_of};
ghost use Rattle.beside.specs.Host.{sort_reply_of};
ghost use Rattle.wrap.specs.Calls.{wrap_of, wrap_masked_of, unwrap_of, unwrap_masked_of};
ghost use Rattle.packet.specs.Calls.{scramble_of, descramble_of};
ghost use Rattle.bank.specs.Calls.{empty_bank, load_of, drop_of, run_of};
ghost use Rattle.face.specs.Packed.{packed, packed_beside};

use aes::reply::{Refusal, reply};
use bank::{Bank, Handed};

#[unsafe(no_mangle)]
pub extern "C" fn slipgrease_expand_key(key: &[u8], schedule: &mut [u8]) -> u8
    ensures { (result, schedule.new) ≡ expand_key_of key.now schedule.old }
{
    reply(aes::expand_key(key, schedule))
}

#[unsafe(no_mangle)]
pub extern "C" fn slipgrease_encrypt(schedule: &[u8], input: &[u8], output: &mut [u8]) -> u8
    ensures { (result, output.new) ≡ encrypt_of schedule.now input.now output.old }
{
    reply(aes::encrypt(schedule, input, output))
}

#[unsafe(no_mangle)]
pub extern "C" fn slipgrease_decrypt(schedule: &[u8], input: &[u8], output: &mut [u8]) -> u8
    ensures { (result, output.new) ≡ decrypt_of schedule.now input.now output.old }
{
    reply(aes::decrypt(schedule, input, output))
}

#[unsafe(no_mangle)]
pub extern "C" fn slipgrease_record_plain(schedule: &[u8], input: &[u8], states: &mut [u8]) -> u8
    ensures { (result, states.new) ≡ record_plain_of schedule.now input.now states.old }
{
    reply(aes::record_plain(schedule, input, states))
}

#[unsafe(no_mangle)]
pub extern "C" fn slipgrease_encrypt_published(
    schedule: &[u8],
    input: &[u8],
    output: &mut [u8],
    offsets: &[u8],
    step: u8,
    form: u8,
) -> u8
    ensures { (result, output.new) ≡ encrypt_published_of schedule.now input.now output.old offsets.now step form }
{
    reply(masked::encrypt_published(schedule, input, output, offsets, step, form))
}

#[unsafe(no_mangle)]
pub extern "C" fn slipgrease_encrypt_blocks(
    schedule: &[u8],
    input: &[u8],
    output: &mut [u8],
    offsets: &[u8],
    step: u8,
    form: u8,
) -> u8
    ensures { (result, output.new) ≡ encrypt_blocks_of schedule.now input.now output.old offsets.now step form }
{
    reply(masked::encrypt_blocks(schedule, input, output, offsets, step, form))
}

#[unsafe(no_mangle)]
pub extern "C" fn slipgrease_encrypt_masked(
    schedule: &[u8],
    input: &[u8],
    output: &mut [u8],
    masks: &[u8],
    offsets: &[u8],
    step: u8,
    form: u8,
) -> u8
    ensures { (result, output.new) ≡ encrypt_masked_of schedule.now input.now output.old masks.now offsets.now step form }
{
    reply(masked::encrypt_masked(schedule, input, output, masks, offsets, step, form))
}

#[unsafe(no_mangle)]
pub extern "C" fn slipgrease_record_masked(
    schedule: &[u8],
    input: &[u8],
    masks: &[u8],
    offsets: &[u8],
    step: u8,
    states: &mut [u8],
) -> u8
    ensures { (result, states.new) ≡ record_masked_of schedule.now input.now masks.now offsets.now step states.old }
{
    reply(masked::record_masked(schedule, input, masks, offsets, step, states))
}

#[unsafe(no_mangle)]
pub extern "C" fn slipgrease_decrypt_published(
    schedule: &[u8],
    input: &[u8],
    output: &mut [u8],
    offsets: &[u8],
    step: u8,
) -> u8
    ensures { (result, output.new) ≡ decrypt_published_of schedule.now input.now output.old offsets.now step }
{
    reply(masked::decrypt_published(schedule, input, output, offsets, step))
}

#[unsafe(no_mangle)]
pub extern "C" fn slipgrease_decrypt_masked(
    schedule: &[u8],
    input: &[u8],
    output: &mut [u8],
    masks: &[u8],
    offsets: &[u8],
    step: u8,
) -> u8
    ensures { (result, output.new) ≡ decrypt_masked_of schedule.now input.now output.old masks.now offsets.now step }
{
    reply(masked::decrypt_masked(schedule, input, output, masks, offsets, step))
}

#[unsafe(no_mangle)]
pub extern "C" fn slipgrease_record_masked_decryption(
    schedule: &[u8],
    input: &[u8],
    masks: &[u8],
    offsets: &[u8],
    step: u8,
    states: &mut [u8],
) -> u8
    ensures { (result, states.new) ≡ record_masked_decryption_of schedule.now input.now masks.now offsets.now step states.old }
{
    reply(masked::record_masked_decryption(schedule, input, masks, offsets, step, states))
}

#[unsafe(no_mangle)]
pub extern "C" fn slipgrease_read_sheet(sheet: &[u8], masks: &mut [u8]) -> u16
    ensures { (result, masks.new) ≡ packed_beside (read_sheet_of sheet.now masks.old) }
{
    packed(masks::read_sheet(sheet, masks))
}

#[unsafe(no_mangle)]
pub extern "C" fn slipgrease_write_sheet(masks: &[u8], step: u8, sheet: &mut [u8]) -> u8
    ensures { (result, sheet.new) ≡ write_sheet_of masks.now step sheet.old }
{
    reply(masks::write_sheet(masks, step, sheet))
}

#[unsafe(no_mangle)]
pub extern "C" fn slipgrease_fitness(masks: &[u8]) -> u16
    ensures { result ≡ packed (fitness_of masks.now) }
{
    packed(beside::fitness(masks))
}

#[unsafe(no_mangle)]
pub extern "C" fn slipgrease_mask_count(
    masks: &[u8],
    row: u8,
    byte: u8,
    low: u8,
    middle: u8,
    high: u8,
    pattern: u8,
) -> u16
    ensures { result ≡ packed (mask_count_of masks.now row byte low middle high pattern) }
{
    packed(beside::mask_count(masks, row, byte, low, middle, high, pattern))
}

#[unsafe(no_mangle)]
pub extern "C" fn slipgrease_convert(input: &[u8], output: &mut [u8], offset: u8) -> u8
    ensures { (result, output.new) ≡ convert_of input.now output.old offset }
{
    reply(beside::convert(input, output, offset))
}

#[unsafe(no_mangle)]
pub extern "C" fn slipgrease_wrap(schedule: &[u8], key_data: &[u8], wrapped: &mut [u8]) -> u8
    ensures { (result, wrapped.new) ≡ wrap_of schedule.now key_data.now wrapped.old }
{
    reply(wrap::wrap(schedule, key_data, wrapped))
}

#[unsafe(no_mangle)]
pub extern "C" fn slipgrease_unwrap(schedule: &[u8], wrapped: &[u8], key_data: &mut [u8]) -> u8
    ensures { (result, key_data.new) ≡ unwrap_of schedule.now wrapped.now key_data.old }
{
    reply(wrap::unwrap(schedule, wrapped, key_data))
}

#[unsafe(no_mangle)]
pub extern "C" fn slipgrease_wrap_masked(
    schedule: &[u8],
    key_data: &[u8],
    wrapped: &mut [u8],
    offset: u8,
) -> u8
    ensures { (result, wrapped.new) ≡ wrap_masked_of schedule.now key_data.now wrapped.old offset }
{
    reply(wrap::wrap_masked(schedule, key_data, wrapped, offset))
}

#[unsafe(no_mangle)]
pub extern "C" fn slipgrease_unwrap_masked(
    schedule: &[u8],
    wrapped: &[u8],
    key_data: &mut [u8],
    offset: u8,
) -> u8
    ensures { (result, key_data.new) ≡ unwrap_masked_of schedule.now wrapped.now key_data.old offset }
{
    reply(wrap::unwrap_masked(schedule, wrapped, key_data, offset))
}

#[unsafe(no_mangle)]
pub extern "C" fn slipgrease_scramble(
    packet: &[u8],
    packet_out: &mut [u8],
    pipes: &[u8],
    odd: bool,
) -> u8
    ensures { (result, packet_out.new) ≡ scramble_of packet.now packet_out.old pipes.now odd }
{
    reply(packet::scramble(packet, packet_out, pipes, odd))
}

#[unsafe(no_mangle)]
pub extern "C" fn slipgrease_descramble(packet: &[u8], packet_out: &mut [u8], pipes: &[u8]) -> u8
    ensures { (result, packet_out.new) ≡ descramble_of packet.now packet_out.old pipes.now }
{
    reply(packet::descramble(packet, packet_out, pipes))
}

#[unsafe(no_mangle)]
pub extern "C" fn slipgrease_multiply(a: u8, b: u8) -> u8
    ensures { result ≡ a • b }
{
    aes::multiply(a, b)
}

#[unsafe(no_mangle)]
pub extern "C" fn slipgrease_inverse(b: u8) -> u8
    ensures { result ≡ inverse b }
{
    aes::inverse(b)
}

#[unsafe(no_mangle)]
pub extern "C" fn slipgrease_logarithm(b: u8) -> u16
    ensures { result ≡ packed (logarithm_of b) }
{
    packed(aes::logarithm(b))
}

#[unsafe(no_mangle)]
pub extern "C" fn slipgrease_power(n: u8) -> u16
    ensures { result ≡ packed (power_of n) }
{
    packed(aes::power(n))
}

#[unsafe(no_mangle)]
pub extern "C" fn slipgrease_masked_inverse(x: u8, r: u8) -> u8
    ensures { result ≡ masked_inverse x r }
{
    beside::masked_inverse(x, r)
}

#[unsafe(no_mangle)]
pub extern "C" fn slipgrease_tower_inverse(x: u8, r: u8) -> u8
    ensures { result ≡ masked_inverse x r }
{
    tower::tower_inverse(x, r)
}

#[unsafe(no_mangle)]
pub extern "C" fn slipgrease_tower_box(label: u8, x: u8) -> u8
    ensures { result ≡ masked_box s_box published 1 label x }
{
    tower::tower_box(label, x)
}

#[unsafe(no_mangle)]
pub extern "C" fn slipgrease_sort_reply(number: u8) -> u8
    ensures { result ≡ sort_reply_of number }
{
    beside::sort_reply(number) as u8
}

fn packed(outcome: Result<u8, Refusal>) -> u16
    ensures { result ≡ packed (reply outcome, value outcome) }
{
    match outcome {
        Ok(value) => value as u16,
        Err(refusal) => refusal as u16 * 256,
    }
}

#[unsafe(no_mangle)]
pub extern "C" fn slipgrease_bank_empty() -> Bank
    ensures { result ≡ empty_bank }
{
    Bank::empty()
}

#[unsafe(no_mangle)]
pub extern "C" fn slipgrease_bank_load(bank: Bank, party: u8, schedule: &[u8]) -> Handed
    ensures { (result.reply, (result.number, result.bank)) ≡ load_of bank party schedule.now }
{
    bank.load(party, schedule)
}

#[unsafe(no_mangle)]
pub extern "C" fn slipgrease_bank_run(
    bank: Bank,
    party: u8,
    number: u8,
    input: &[u8],
    output: &mut [u8],
    offset: u8,
) -> u8
    ensures { (result, output.new) ≡ run_of bank party number input.now output.old offset }
{
    reply(bank.run(party, number, input, output, offset))
}

#[unsafe(no_mangle)]
pub extern "C" fn slipgrease_bank_drop(bank: Bank, party: u8, number: u8) -> Handed
    ensures { (result.reply, (result.number, result.bank)) ≡ drop_of bank party number }
{
    bank.drop(party, number)
}
