// Under the masked runs: what a call is lent, as types that the calls alone can make, and what lies beside it, as types that say what it is
// made of.
#![tactic(auto)]

pub mod blocks;
pub mod given;
pub mod tables;
