// Under the programs of vectors of the masked engine: the labels of a run, the masks that should lie over its blocks and states, and
// what a line asks of a call. Nothing is taken of the crates whose runs are held to it.
#![tactic(auto)]

pub mod answer;
pub mod key;
pub mod labels;
pub mod mask;
pub mod state;
pub mod trial;
