// Masked encryption of one block: with the published masks, and with any sixteen masks.
ghost use Rattle.std.specs.Prelude.{◌≡◌};
ghost use Rattle.aes.specs.Refusal.{reply};
ghost use Rattle.masked.specs.Calls.{encrypt_published_of, encrypt_masked_of};

use super::checked::check;
use aes::reply::Refusal;
use caller::Caller;
use lent::given::Start;
use starts::{encrypted, sealed};

// Writes the block that the masked run ends with, over the published masks.
pub fn encrypt_published(
    schedule: &[u8],
    input: &[u8],
    output: &mut [u8],
    offsets: &[u8],
    step: u8,
    form: u8,
) -> Result<(), Refusal>
    ensures { (reply result, output.new) ≡ encrypt_published_of schedule.now input.now output.old offsets.now step form }
{
    // No masks are lent: the input, of which the same length is asked, stands for them.
    check(schedule, input, output, input, offsets, step, form)?;
    let start = Start::lent(Caller {}, offsets);
    sealed(schedule, input, output, step, start);
    Ok(())
}

// The same over sixteen lent masks, whose tables are worked out before the block is read.
pub fn encrypt_masked(
    schedule: &[u8],
    input: &[u8],
    output: &mut [u8],
    masks: &[u8],
    offsets: &[u8],
    step: u8,
    form: u8,
) -> Result<(), Refusal>
    ensures { (reply result, output.new) ≡ encrypt_masked_of schedule.now input.now output.old masks.now offsets.now step form }
{
    check(schedule, input, output, masks, offsets, step, form)?;
    let start = Start::lent(Caller {}, offsets);
    encrypted(schedule, input, output, masks, step, start);
    Ok(())
}
