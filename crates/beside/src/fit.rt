// The fitness test of a mask table.
ghost use Rattle.std.specs.Prelude.{◌≡◌, ◌*◌, ◌^◌, ◌<◌};
ghost use Rattle.aes.specs.State.{at};
ghost use Rattle.aes.specs.Refusal.{reply, value};
ghost use Rattle.beside.specs.Counts.{counted};
ghost use Rattle.beside.specs.Fitness.{pattern, patterns, even, fit, fitness_of};

use aes::reply::Refusal;

// Eight counts in a word, a byte each: every pattern twice.
const EACH_TWICE: u64 = 0x0202_0202_0202_0202;

// Value 1 where the table is fit, otherwise 0: a number, since `fitness_of` states it so and C is told it.
pub fn fitness(masks: &[u8]) -> Result<u8, Refusal>
    ensures { (reply result, value result) ≡ fitness_of masks.now }
{
    let masks = masks.as_array::<16>().ok_or(Refusal::MasksLength)?;
    Ok(u8::from(balanced(masks)))
}

// Whether any three bits of the sixteen masks show each of their eight patterns twice.
fn balanced(masks: &[u8; 16]) -> bool
    ensures { result ≡ fit masks.now }
{
    for z in 0..8 {
        for y in 0..z {
            for x in 0..y {
                if !even(masks, x, y, z) {
                    return false;
                }
            }
        }
    }
    true
}

// Whether the bits x, y and z of the masks show each of their eight patterns twice.
fn even(masks: &[u8; 16], x: u8, y: u8, z: u8) -> bool
    requires { (x < 8) × (y < 8) × (z < 8) }
    ensures { result ≡ even (patterns (at masks.now) x y z) }
{
    counted(masks, x, y, z) == EACH_TWICE
}

// How often each of their eight patterns shows, a byte each, that of pattern 0 lowest.
pub(crate) fn counted(masks: &[u8; 16], x: u8, y: u8, z: u8) -> u64
    requires { (x < 8) × (y < 8) × (z < 8) }
    ensures { result ≡ counted (λ k. pattern x y z (at masks.now k)) 16 }
{
    let mut counts = 0;
    for m in masks {
        counts += tick(*m, x, y, z);
    }
    counts
}

// One, in the byte that the bits x, y and z of b name.
fn tick(b: u8, x: u8, y: u8, z: u8) -> u64
    requires { (x < 8) × (y < 8) × (z < 8) }
    ensures { result ≡ 2 ^ (8 * pattern x y z b) }
{
    let pattern = ((b >> z) % 2 * 2 + (b >> y) % 2) * 2 + (b >> x) % 2;
    1 << (8 * pattern)
}
