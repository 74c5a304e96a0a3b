// Under the programs of vectors: the lines that they read, and the tables that they print; of these report takes how input is read and
// how numbers are laid out. No engine stands on it.
#![tactic(auto)]

pub mod c3;
pub mod counts;
pub mod input;
pub mod page;
pub mod program;
pub mod reply;
pub mod row;
pub mod source;
#[cfg(test)]
mod tests;
pub mod text;
pub mod vector;
