// The key bank: sixteen places for schedules of 240 bytes, which two parties share, at most twelve each.
#![tactic(auto)]

mod keys;
mod tags;

pub use keys::{Bank, Handed};
