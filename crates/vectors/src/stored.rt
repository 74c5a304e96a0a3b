// The converter of what early modules stored.
use crate::calls::crossed;
use covers::answer::{Answer, answer};
use covers::key::Schedule;
use covers::mask::stored;
use lines::counts::Tally;
use lines::vector::{Vector, Way};

// At all offsets, what it makes of the vector's cipher block as it was stored: the block that `encrypt` writes.
pub fn converted(v: &Vector) -> Tally {
    let block = crossed(Way::Encrypt, &Schedule::of(&v.key), v.plain);
    let cipher = v.cipher;
    (0..16).fold(Tally::default(), |tally, offset| {
        tally.with(conversion(cipher, offset) == block)
    })
}

fn conversion(cipher: [u8; 16], offset: u8) -> Answer {
    answer(|output| beside::convert(&stored(offset, cipher), output, offset))
}
