// The calls of the plain engine, held to what a vector says. A refusal is a difference.
use covers::answer::{Answer, answer};
use covers::key::Schedule;
use lines::vector::{Vector, Way};

// Whether so many calls, each on the output of the one before, lead from the one block to the other.
pub fn leads(way: Way, times: usize, v: &Vector) -> bool {
    let schedule = Schedule::of(&v.key);
    let led = (0..times).try_fold(v.start(way), |block, _| crossed(way, &schedule, block));
    led == Ok(v.end(way))
}

pub fn crossed(way: Way, schedule: &Schedule, block: [u8; 16]) -> Answer {
    let w = schedule.bytes();
    answer(|output| match way {
        Way::Encrypt => aes::encrypt(w, &block, output),
        Way::Decrypt => aes::decrypt(w, &block, output),
    })
}
