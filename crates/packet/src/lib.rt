// The packet scrambler of the multiplex, for the rack: transport packets of ISO/IEC 13818-1, whose payload is scrambled by CBC.
#![tactic(auto)]

mod calls;
mod header;
mod listed;
mod pid;
mod pipes;
mod way;
mod whole;

pub use calls::{descramble, scramble};
