// Replies to a step.
use crate::text::{field, hex};

// A step, and the reply to it.
#[derive(Clone, Copy)]
pub struct Expected {
    pub step: u8,
    pub reply: u8,
}

impl Expected {
    pub fn read(line: &[u8]) -> Option<Expected> {
        if line.len() != 5 {
            return None;
        }
        let [step]: [u8; 1] = hex(field(line, 0))?;
        let [reply]: [u8; 1] = hex(field(line, 1))?;
        Some(Expected { step, reply })
    }
}
