// What a line asks of a masked call, which is made again and again with other labels.
use crate::answer::Answer;
use crate::key::Schedule;
use crate::labels::{Labels, RECORDS, turned};
use crate::mask::unfit;
use aes::reply::reply;
use lines::counts::Tally;
use lines::reply::Expected;
use lines::source::Source;
use lines::vector::{Key, Vector, Way};

// A block, with all labels, and with as many other records; the block at the end of a thousand calls, each on what the one before
// wrote; or a reply to a step, at all offsets.
#[derive(Clone, Copy)]
pub enum Asked {
    Block,
    Chain,
    Reply(Expected),
}

// What the calls are given, and the block that should come in the end.
#[derive(Clone, Copy)]
pub struct Trial {
    asked: Asked,
    pub schedule: Schedule,
    pub masks: [u8; 16],
    block: [u8; 16],
    end: [u8; 16],
}

impl Trial {
    pub fn new(asked: Asked, key: &Key, masks: [u8; 16], block: [u8; 16], end: [u8; 16]) -> Trial {
        Trial {
            asked,
            schedule: Schedule::of(key),
            masks,
            block,
            end,
        }
    }

    // Either way the masks are made of the cipher block: the plain block is zeros in many vectors.
    fn of_vector(asked: Asked, way: Way, v: &Vector) -> Trial {
        Trial::new(asked, &v.key, unfit(v.cipher), v.start(way), v.end(way))
    }

    // What a line of a source asks of the calls that cross this way; nothing, where it could not be read or is not theirs.
    pub fn of_line(source: Source, way: Way, line: &[u8]) -> Option<Trial> {
        let asked = match source {
            Source::Ecb => Asked::Block,
            Source::Chain(own) if own == way => Asked::Chain,
            Source::Step => return Trial::of_step(line),
            _ => return None,
        };
        Some(Trial::of_vector(asked, way, &Vector::read(line)?))
    }

    // The reply depends neither on the key nor on the block and the masks: these are zeros.
    pub fn of_step(line: &[u8]) -> Option<Trial> {
        let asked = Asked::Reply(Expected::read(line)?);
        Some(Trial::new(asked, &Key::long([0; 32]), [0; 16], [0; 16], [0; 16]))
    }

    // What comes of all calls. One is given the trial, its block and its labels.
    pub fn run<F: Fn(&Trial, &[u8; 16], Labels) -> Answer>(&self, call: F) -> Tally
        requires { F.IsAlwaysCallable call }
    {
        let end = self.end;
        match self.asked {
            Asked::Block => (1..=RECORDS).fold(Tally::default(), |tally, i| {
                tally.with(call(self, &self.block, turned(i)) == Ok(end))
            }),
            Asked::Chain => {
                let mut calls = (1..=1000).rev();
                let led = calls.try_fold(self.block, |block, i| call(self, &block, turned(i)));
                Tally::default().with(led == Ok(end))
            }
            Asked::Reply(Expected { step, reply }) => {
                (0..16).fold(Tally::default(), |tally, offset| {
                    let labels = Labels {
                        offset,
                        step,
                        spread: 1,
                    };
                    tally.with(number(call(self, &self.block, labels)) == reply)
                })
            }
        }
    }
}

// The reply to C of a call with this outcome.
fn number(answer: Answer) -> u8 {
    reply(answer.map(|_| ()))
}
