// Under the masked calls: the steps, and the runs that are made of them. A step is known here alone.
#![tactic(auto)]

pub mod back;
mod blocks;
mod round;
pub mod run;
mod steps;
