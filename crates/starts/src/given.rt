// With sixteen lent masks, whose tables are worked out before the block is read. Each way, recorded or not, has a function of its own, in
// which tools/steps sees what it comes to; and each fills its tables where they stand, by which tools/memory knows them.
ghost use Rattle.std.specs.Prelude.{true, ◌≡◌, ◌+◌, ◌*◌, length};
ghost use Rattle.aes.specs.Key.{rounds_of};
ghost use Rattle.aes.specs.Reply.{scheduled};
ghost use Rattle.aes.specs.Record.{bytes};
ghost use Rattle.lent.specs.Started.{record_of};
ghost use Rattle.runs.specs.Run.{masked_cipher, masked_record};
ghost use Rattle.runs.specs.Back.{masked_inv_cipher, masked_back_record};

use caller::Caller;
use lent::given::{Block, Masks, Start};
use lent::tables::Schedule;
use masks::constants::Kind;
use masks::places::first_places;
use runs::{back, run};

// The finished block, and the states.
pub fn encrypted(
    schedule: &[u8],
    input: &[u8],
    output: &mut [u8],
    masks: &[u8],
    step: u8,
    start: Start,
)
    requires { (scheduled (length schedule.now) ≡ true) × (length input.now ≡ 16) × (length output.old ≡ 16) × (length masks.now ≡ 16) }
    ensures { output.new ≡ masked_cipher (rounds_of schedule.now) masks.now (record_of start) step schedule.now input.now }
{
    let masks = Masks::lent(Caller {}, masks, step, start);
    let mut boxes = [0u8; 4096];
    masks.boxes(&mut boxes);
    let mut places = first_places();
    let mut covers = [0u8; 256];
    masks.first_covers(&mut covers);
    let mut compensations = [0u8; 256];
    masks.first_constants(Kind::Compensation, &mut compensations);
    let t = masks.encryption(&boxes, &mut places, &mut covers, &mut compensations);
    let block = Block::lent(Caller {}, input);
    let w = Schedule::lent(Caller {}, schedule);
    run::unrecorded(block, &w, &t, masks.first(), output);
}

pub fn recorded(
    schedule: &[u8],
    input: &[u8],
    states: &mut [u8],
    masks: &[u8],
    step: u8,
    start: Start,
)
    requires { (scheduled (length schedule.now) ≡ true) × (length input.now ≡ 16) × (length states.old ≡ 80 * rounds_of schedule.now + 16) × (length masks.now ≡ 16) }
    ensures { states.new ≡ bytes (masked_record (rounds_of schedule.now) masks.now (record_of start) step schedule.now input.now) }
{
    let masks = Masks::lent(Caller {}, masks, step, start);
    let mut boxes = [0u8; 4096];
    masks.boxes(&mut boxes);
    let mut places = first_places();
    let mut covers = [0u8; 256];
    masks.first_covers(&mut covers);
    let mut compensations = [0u8; 256];
    masks.first_constants(Kind::Compensation, &mut compensations);
    let t = masks.encryption(&boxes, &mut places, &mut covers, &mut compensations);
    let block = Block::lent(Caller {}, input);
    let w = Schedule::lent(Caller {}, schedule);
    run::recorded(block, &w, &t, masks.first(), states);
}

// The same of a decryption.
pub fn decrypted(
    schedule: &[u8],
    input: &[u8],
    output: &mut [u8],
    masks: &[u8],
    step: u8,
    start: Start,
)
    requires { (scheduled (length schedule.now) ≡ true) × (length input.now ≡ 16) × (length output.old ≡ 16) × (length masks.now ≡ 16) }
    ensures { output.new ≡ masked_inv_cipher (rounds_of schedule.now) masks.now (record_of start) step schedule.now input.now }
{
    let masks = Masks::lent(Caller {}, masks, step, start);
    let mut boxes = [0u8; 4096];
    masks.inverse_boxes(&mut boxes);
    let mut places = first_places();
    let mut covers = [0u8; 256];
    masks.first_covers(&mut covers);
    let mut rows = [0u8; 256];
    masks.first_constants(Kind::AfterRows, &mut rows);
    let mut columns = [0u8; 256];
    masks.first_constants(Kind::AfterColumns, &mut columns);
    let t = masks.decryption(&boxes, &mut places, &mut covers, &mut rows, &mut columns);
    let block = Block::lent(Caller {}, input);
    let w = Schedule::lent(Caller {}, schedule);
    back::opened(block, &w, &t, masks.first(), output);
}

pub fn decryption_recorded(
    schedule: &[u8],
    input: &[u8],
    states: &mut [u8],
    masks: &[u8],
    step: u8,
    start: Start,
)
    requires { (scheduled (length schedule.now) ≡ true) × (length input.now ≡ 16) × (length states.old ≡ 96 * rounds_of schedule.now + 16) × (length masks.now ≡ 16) }
    ensures { states.new ≡ bytes (masked_back_record (rounds_of schedule.now) masks.now (record_of start) step schedule.now input.now) }
{
    let masks = Masks::lent(Caller {}, masks, step, start);
    let mut boxes = [0u8; 4096];
    masks.inverse_boxes(&mut boxes);
    let mut places = first_places();
    let mut covers = [0u8; 256];
    masks.first_covers(&mut covers);
    let mut rows = [0u8; 256];
    masks.first_constants(Kind::AfterRows, &mut rows);
    let mut columns = [0u8; 256];
    masks.first_constants(Kind::AfterColumns, &mut columns);
    let t = masks.decryption(&boxes, &mut places, &mut covers, &mut rows, &mut columns);
    let block = Block::lent(Caller {}, input);
    let w = Schedule::lent(Caller {}, schedule);
    back::opened_recorded(block, &w, &t, masks.first(), states);
}
