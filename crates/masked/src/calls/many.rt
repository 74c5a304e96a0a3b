// Masked encryption of many blocks with the published masks, each at its own offset. Masks, boxes and compensations are made
// once.
ghost use Rattle.std.specs.Prelude.{true, ◌≡◌, ◌*◌, length};
ghost use Rattle.aes.specs.Reply.{refusal, scheduled};
ghost use Rattle.masks.specs.Mask.{in_row};
ghost use Rattle.aes.specs.Refusal.{reply};
ghost use Rattle.masked.specs.Calls.{encrypt_blocks_of, blocks_checks};
ghost use Rattle.starts.specs.Each.{in_turn};

use super::chosen;
use aes::reply::Refusal;
use caller::Caller;
use lent::given::{Masks, Start};
use masks::places::first_places;
use starts::each;

// Writes for each block what encrypt_published would, at the block's own offset.
pub fn encrypt_blocks(
    schedule: &[u8],
    input: &[u8],
    output: &mut [u8],
    offsets: &[u8],
    step: u8,
    form: u8,
) -> Result<(), Refusal>
    ensures { (reply result, output.new) ≡ encrypt_blocks_of schedule.now input.now output.old offsets.now step form }
{
    check(schedule, input, output, offsets, step, form)?;
    in_turn(schedule, input, output, offsets, step);
    Ok(())
}

// One block after the other, to its place in the output.
fn in_turn(schedule: &[u8], input: &[u8], output: &mut [u8], offsets: &[u8], step: u8)
    requires { (scheduled (length schedule.now) ≡ true) × (length input.now ≡ 16 * length offsets.now) × (length output.old ≡ 16 * length offsets.now) }
    ensures { output.new ≡ in_row (in_turn schedule.now input.now offsets.now step) (length offsets.now) }
{
    let caller = Caller {};
    let masks = Masks::published(caller, step, Start::one(caller, 0));
    let mut boxes = stores::boxes::boxes();
    masks.stepped(&mut boxes);
    let mut places = first_places();
    let mut covers = stores::constants::covers();
    let mut compensations = stores::constants::compensations();
    let t = masks.encryption(&boxes, &mut places, &mut covers, &mut compensations);
    each(schedule, input, output, offsets, &t);
}

// The first check that fails, in their order.
fn check(
    schedule: &[u8],
    input: &[u8],
    output: &[u8],
    offsets: &[u8],
    step: u8,
    form: u8,
) -> Result<(), Refusal>
    ensures { reply result ≡ refusal (blocks_checks schedule.now input.now output.now offsets.now step form) }
{
    aes::rounds_for(schedule.len()).ok_or(Refusal::ScheduleLength)?;
    if input.len() % 16 != 0 {
        return Err(Refusal::InputLength);
    }
    if 4096 < input.len() {
        return Err(Refusal::InputLength);
    }
    if output.len() != input.len() {
        return Err(Refusal::OutputLength);
    }
    if offsets.len() != input.len() / 16 {
        return Err(Refusal::OffsetsLength);
    }
    chosen::check(offsets, step, form)
}
