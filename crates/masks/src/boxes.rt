// The sixteen masked boxes of any masks, worked out as whole tables.
ghost use Rattle.std.specs.Prelude.{◌≡◌, ℕ, ◌+◌, ◌*◌, ◌≤◌, ◌<◌, length};
ghost use Rattle.aes.specs.Byte.{◌⊕◌, table};
ghost use Rattle.aes.specs.Box.{s_box, inv_s_box};
ghost use Rattle.masks.specs.Mask.{masked_boxes};
ghost use Rattle.masks.specs.Parts.{turned_table, Further, Exchanged};

use crate::label::Label;
use aes::tables;

// The box of each label, to the lent place: it takes the mask of its label and gives that of the label which is a step on.
pub fn made(masks: [u8; 16], step: u8, boxes: &mut [u8; 4096])
    ensures { boxes.new ≡ masked_boxes s_box masks step }
{
    filled(&tables::sbox(), masks, step, boxes);
}

// The same of the inverse of S, for decryption. The two have names of their own, by which docs/STEPS.md tells which S a run reaches.
pub fn made_inverse(masks: [u8; 16], step: u8, boxes: &mut [u8; 4096])
    ensures { boxes.new ≡ masked_boxes inv_s_box masks step }
{
    filled(&tables::inv_sbox(), masks, step, boxes);
}

fn filled(lent: &[u8; 256], masks: [u8; 16], step: u8, boxes: &mut [u8; 4096])
    ensures { (f : ℕ → ℕ) → lent.now ≡ table f 256 → boxes.new ≡ masked_boxes f masks step }
{
    let mut tables = [0u8; 4096];
    turned(lent, &mut tables);
    for n in 0..16u8 {
        let l = Label::FIRST.next(n);
        let given = l.next(step);
        let a = 256 * n as usize;
        fill(
            &tables,
            masks[l.read()],
            masks[given.read()],
            &mut boxes[a..a + 256],
        );
    }
}

// One box, from the mask of what it takes to the mask of what it gives. Of a mask 16 h + l it is made of table l, whose rows of
// sixteen are taken in another order: row b is row b xor h.
fn fill(tables: &[u8; 4096], from: u8, to: u8, part: &mut [u8])
    requires { length part.old ≡ 256 }
    ensures { (f : ℕ → ℕ) → tables.now ≡ table (turned_table f) 4096 → part.new ≡ table (λ x. f (x ⊕ «from») ⊕ to) 256 }
{
    let taken = from as usize;
    for b in 0..16 {
        let row = 256 * (taken % 16) + 16 * (b ^ taken / 16);
        for i in 0..16 {
            part[16 * b + i] = tables[row + i] ^ to;
        }
    }
}

// Sixteen tables in a row, in the lent place, of which table l has at x what the lent one has at x xor l. They double: the first k
// tables are written once more, with what stands at y xor k in the place of what stands at y.
fn turned(t: &[u8; 256], r: &mut [u8; 4096])
    ensures { (f : ℕ → ℕ) → t.now ≡ table f 256 → r.new ≡ table (turned_table f) 4096 }
{
    r[..256].copy_from_slice(t);
    doubled::<1>(r);
    doubled::<2>(r);
    doubled::<4>(r);
    doubled::<8>(r);
}

// By rows of sixteen, in which the exchange is the same: so the compiler moves a row at once.
fn doubled<const K: usize>(r: &mut [u8; 4096])
    requires { K ≤ 8 }
    ensures { Further r.old r.new (256 * K) (512 * K) (Exchanged K (256 * K)) }
{
    let end = 256 * K;
    for n in 0..16 * K {
        let y = 16 * n;
        for i in 0..16 {
            r[end + y + i] = r[y + (i ^ K)];
        }
    }
}
