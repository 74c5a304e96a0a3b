// The buffer of key wrap, RFC 3394: its register A and its values R[i], and what is done with them without an engine.
#![tactic(auto)]

mod ends;
mod values;

pub use ends::{handed_out, laid};
pub use values::{copy, counted, gather, scatter};
