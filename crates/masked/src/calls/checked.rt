// What the calls for one block check, in the order of their replies.
ghost use Rattle.std.specs.Prelude.{◌≡◌, ◌+◌, ◌*◌, ◌<◌};
ghost use Rattle.aes.specs.Key.{rounds_of};
ghost use Rattle.aes.specs.Reply.{refusal};
ghost use Rattle.aes.specs.Refusal.{reply};
ghost use Rattle.masked.specs.Calls.{checks, record_checks};

use super::chosen;
use aes::reply::Refusal;

// The first check that fails, in their order.
pub(crate) fn check(
    schedule: &[u8],
    input: &[u8],
    output: &[u8],
    masks: &[u8],
    offsets: &[u8],
    step: u8,
    form: u8,
) -> Result<(), Refusal>
    ensures { reply result ≡ refusal (checks schedule.now input.now output.now masks.now offsets.now step form) }
{
    aes::rounds_for(schedule.len()).ok_or(Refusal::ScheduleLength)?;
    if input.len() != 16 {
        return Err(Refusal::InputLength);
    }
    if output.len() != 16 {
        return Err(Refusal::OutputLength);
    }
    if masks.len() != 16 {
        return Err(Refusal::MasksLength);
    }
    if offsets.len() != 16 {
        return Err(Refusal::OffsetPerByte);
    }
    chosen::check(offsets, step, form)
}

// The same of a record that has so many states for each round, and one more. No output is lent: the input, of which the same length
// is asked, stands for it.
pub(crate) fn check_record(
    schedule: &[u8],
    input: &[u8],
    masks: &[u8],
    offsets: &[u8],
    step: u8,
    states: &[u8],
    each: usize,
) -> Result<(), Refusal>
    requires { each < 7 }
    ensures { reply result ≡ refusal (record_checks (16 * (each * rounds_of schedule.now + 1)) schedule.now input.now masks.now offsets.now step states.now) }
{
    let n = aes::rounds_for(schedule.len()).ok_or(Refusal::ScheduleLength)?;
    check(schedule, input, input, masks, offsets, step, 0)?;
    if states.len() != 16 * (each * n + 1) {
        return Err(Refusal::RecordLength);
    }
    Ok(())
}
