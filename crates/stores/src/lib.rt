// What is stored for the published masks: their boxes with step 1, both ways, and their constants.
#![tactic(auto)]

pub mod boxes;
pub mod constants;
pub mod inverse;
