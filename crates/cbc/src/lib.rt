// CBC of SP 800-38A over whole blocks, by the plain engine.
#![tactic(auto)]

mod chain;

pub use chain::{cbc, copy, sixteen_at};
