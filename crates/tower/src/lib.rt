// A masked box without a stored one: inversion in the tower of document 000, whose four tables have 1,024 bytes, for 4,096 of boxes.
#![tactic(auto)]

mod basis;
mod half;
mod inversion;
mod sbox;
mod tables;

pub use inversion::tower_inverse;
pub use sbox::tower_box;
