// With the published masks. What is stored of them is with step 1, and at the offsets of 0.
ghost use Rattle.std.specs.Prelude.{true, ◌≡◌, length};
ghost use Rattle.aes.specs.Key.{rounds_of};
ghost use Rattle.aes.specs.Reply.{scheduled};
ghost use Rattle.masks.specs.Mask.{published};
ghost use Rattle.lent.specs.Started.{record_of};
ghost use Rattle.runs.specs.Run.{masked_cipher};
ghost use Rattle.runs.specs.Back.{masked_inv_cipher};

use caller::Caller;
use lent::given::{Block, Masks, Start};
use lent::tables::Schedule;
use masks::places::first_places;
use runs::{back, run};
use stores::boxes::boxes;
use stores::constants;
use stores::inverse::inverse_boxes;

// The finished block of an encryption, and of a decryption: two functions, since tools/steps sees by the functions alone that neither comes
// to what is stored for the other.
pub fn sealed(schedule: &[u8], input: &[u8], output: &mut [u8], step: u8, start: Start)
    requires { (scheduled (length schedule.now) ≡ true) × (length input.now ≡ 16) × (length output.old ≡ 16) }
    ensures { output.new ≡ masked_cipher (rounds_of schedule.now) published (record_of start) step schedule.now input.now }
{
    let masks = Masks::published(Caller {}, step, start);
    let mut boxes = boxes();
    masks.stepped(&mut boxes);
    let mut places = first_places();
    let mut covers = constants::covers();
    let mut compensations = constants::compensations();
    let t = masks.encryption(&boxes, &mut places, &mut covers, &mut compensations);
    let block = Block::lent(Caller {}, input);
    let w = Schedule::lent(Caller {}, schedule);
    run::unrecorded(block, &w, &t, masks.first(), output);
}

pub fn unsealed(schedule: &[u8], input: &[u8], output: &mut [u8], step: u8, start: Start)
    requires { (scheduled (length schedule.now) ≡ true) × (length input.now ≡ 16) × (length output.old ≡ 16) }
    ensures { output.new ≡ masked_inv_cipher (rounds_of schedule.now) published (record_of start) step schedule.now input.now }
{
    let masks = Masks::published(Caller {}, step, start);
    let mut boxes = inverse_boxes();
    masks.inverse_stepped(&mut boxes);
    let mut places = first_places();
    let mut covers = constants::covers();
    let mut rows = constants::after_rows();
    let mut columns = constants::after_columns();
    let t = masks.decryption(&boxes, &mut places, &mut covers, &mut rows, &mut columns);
    let block = Block::lent(Caller {}, input);
    let w = Schedule::lent(Caller {}, schedule);
    back::opened(block, &w, &t, masks.first(), output);
}
