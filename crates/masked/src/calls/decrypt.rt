// Masked decryption of one block.
ghost use Rattle.std.specs.Prelude.{◌≡◌};
ghost use Rattle.aes.specs.Refusal.{reply};
ghost use Rattle.masked.specs.Calls.{decrypt_published_of, decrypt_masked_of, record_masked_decryption_of};

use super::checked::{check, check_record};
use aes::reply::Refusal;
use caller::Caller;
use lent::given::Start;
use starts::{decrypted, decryption_recorded, unsealed};

// Writes the block that the masked decryption ends with, over the published masks.
pub fn decrypt_published(
    schedule: &[u8],
    input: &[u8],
    output: &mut [u8],
    offsets: &[u8],
    step: u8,
) -> Result<(), Refusal>
    ensures { (reply result, output.new) ≡ decrypt_published_of schedule.now input.now output.old offsets.now step }
{
    // No masks are lent: the input, of which the same length is asked, stands for them.
    check(schedule, input, output, input, offsets, step, 0)?;
    let start = Start::lent(Caller {}, offsets);
    unsealed(schedule, input, output, step, start);
    Ok(())
}

// The same over sixteen lent masks, whose tables are worked out before the block is read.
pub fn decrypt_masked(
    schedule: &[u8],
    input: &[u8],
    output: &mut [u8],
    masks: &[u8],
    offsets: &[u8],
    step: u8,
) -> Result<(), Refusal>
    ensures { (reply result, output.new) ≡ decrypt_masked_of schedule.now input.now output.old masks.now offsets.now step }
{
    check(schedule, input, output, masks, offsets, step, 0)?;
    let start = Start::lent(Caller {}, offsets);
    decrypted(schedule, input, output, masks, step, start);
    Ok(())
}

// Writes the states of a masked decryption: the covered block, and six for each round.
pub fn record_masked_decryption(
    schedule: &[u8],
    input: &[u8],
    masks: &[u8],
    offsets: &[u8],
    step: u8,
    states: &mut [u8],
) -> Result<(), Refusal>
    ensures { (reply result, states.new) ≡ record_masked_decryption_of schedule.now input.now masks.now offsets.now step states.old }
{
    check_record(schedule, input, masks, offsets, step, states, 6)?;
    let start = Start::lent(Caller {}, offsets);
    decryption_recorded(schedule, input, states, masks, step, start);
    Ok(())
}
