// The recorded masked run, with any sixteen masks.
ghost use Rattle.std.specs.Prelude.{◌≡◌};
ghost use Rattle.aes.specs.Refusal.{reply};
ghost use Rattle.masked.specs.Calls.{record_masked_of};

use super::checked::check_record;
use aes::reply::Refusal;
use caller::Caller;
use lent::given::Start;
use starts::recorded;

// Writes the states of a masked run: the covered block, and five for each round.
pub fn record_masked(
    schedule: &[u8],
    input: &[u8],
    masks: &[u8],
    offsets: &[u8],
    step: u8,
    states: &mut [u8],
) -> Result<(), Refusal>
    ensures { (reply result, states.new) ≡ record_masked_of schedule.now input.now masks.now offsets.now step states.old }
{
    check_record(schedule, input, masks, offsets, step, states, 5)?;
    let start = Start::lent(Caller {}, offsets);
    recorded(schedule, input, states, masks, step, start);
    Ok(())
}
