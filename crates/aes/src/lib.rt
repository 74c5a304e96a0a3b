// The lower crate: the field and the cipher of FIPS 197. The rack's engine.
#![tactic(auto)]

mod cipher;
mod field;
mod key;
mod record;
pub mod reply;
mod size;
mod state;
mod substitution;
pub mod tables;
mod word;

pub use cipher::{decrypt, encrypt};
pub use field::{inverse, logarithm, multiply, power};
pub use key::expand_key;
pub use record::record_plain;
pub use size::rounds_for;
pub use state::{add, inv_mix_columns, inv_shift_rows, mix_columns, shift_rows};
