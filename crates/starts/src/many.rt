// Many blocks, with the published masks and the same tables.
ghost use Rattle.std.specs.Prelude.{true, ◌≡◌, ◌*◌, ◌<◌, length};
ghost use Rattle.aes.specs.Reply.{scheduled};
ghost use Rattle.aes.specs.State.{at};
ghost use Rattle.masks.specs.Mask.{in_row, published, one};
ghost use Rattle.lent.specs.Started.{offsets_of};
ghost use Rattle.starts.specs.Each.{in_turn};

use caller::Caller;
use lent::given::Block;
use lent::tables::{Encryption, Schedule};
use masks::label::Label;
use runs::run::unrecorded;

// One block after the other, each from its own label on, to its place in the output: by its number, since of what is written through the
// chunks of a slice a proof knows no bytes.
pub fn each(schedule: &[u8], input: &[u8], output: &mut [u8], offsets: &[u8], t: &Encryption)
    requires { (scheduled (length schedule.now) ≡ true) × (length input.now ≡ 16 * length offsets.now) × (length output.old ≡ 16 * length offsets.now) × (t.now.laid.masks.bytes ≡ published) × (offsets_of t.now.laid.masks ≡ one 0) }
    ensures { output.new ≡ in_row (in_turn schedule.now input.now offsets.now t.now.laid.masks.step) (length offsets.now) }
{
    let w = Schedule::lent(Caller {}, schedule);
    for k in 0..offsets.len() {
        let a = 16 * k;
        let e = a + 16;
        unrecorded(
            Block::lent(Caller {}, &input[a..e]),
            &w,
            t,
            Label::make(offset(offsets, k)),
            &mut output[a..e],
        );
    }
}

// The offset of a block. It is read by a function of its own, which is lent no block: what handles one reads no byte (tools/steps).
fn offset(offsets: &[u8], k: usize) -> u8
    requires { k < length offsets.now }
    ensures { result ≡ at offsets.now k }
{
    offsets[k]
}
