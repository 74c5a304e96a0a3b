// One block with the published masks, step 1 and one offset: for the crates above that keep to these.
ghost use Rattle.std.specs.Prelude.{◌≡◌};
ghost use Rattle.aes.specs.Reply.{refusal};
ghost use Rattle.aes.specs.Refusal.{reply};
ghost use Rattle.masked.specs.Calls.{encrypt_one_of, decrypt_one_of, one_checks};

use aes::reply::Refusal;
use caller::Caller;
use lent::given::Start;
use starts::{sealed, unsealed};

pub fn encrypt_one(
    schedule: &[u8],
    input: &[u8],
    output: &mut [u8],
    offset: u8,
) -> Result<(), Refusal>
    ensures { (reply result, output.new) ≡ encrypt_one_of schedule.now input.now output.old offset }
{
    check(schedule, input, output, offset)?;
    sealed(schedule, input, output, 1, Start::one(Caller {}, offset));
    Ok(())
}

pub fn decrypt_one(
    schedule: &[u8],
    input: &[u8],
    output: &mut [u8],
    offset: u8,
) -> Result<(), Refusal>
    ensures { (reply result, output.new) ≡ decrypt_one_of schedule.now input.now output.old offset }
{
    check(schedule, input, output, offset)?;
    unsealed(schedule, input, output, 1, Start::one(Caller {}, offset));
    Ok(())
}

// The first check that fails, in their order.
fn check(schedule: &[u8], input: &[u8], output: &[u8], offset: u8) -> Result<(), Refusal>
    ensures { reply result ≡ refusal (one_checks schedule.now input.now output.now offset) }
{
    if schedule.len() != 240 {
        return Err(Refusal::ScheduleLength);
    }
    if input.len() != 16 {
        return Err(Refusal::InputLength);
    }
    if output.len() != 16 {
        return Err(Refusal::OutputLength);
    }
    if 15 < offset {
        return Err(Refusal::OffsetRange);
    }
    Ok(())
}
