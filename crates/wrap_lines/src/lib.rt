// Under the programs of vectors of key wrap: what a line asks of a call. Nothing is taken of the crate whose calls are held to it.
#![tactic(auto)]

pub mod room;
pub mod trial;
