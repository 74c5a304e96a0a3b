// The middle crate: sixteen masks, their labels and their sheet, and the boxes and constants that are made of them.
#![tactic(auto)]

pub mod answers;
pub mod boxes;
pub mod constants;
pub mod label;
mod order;
pub mod places;
mod sheet;
pub mod step;

pub use sheet::{read_sheet, write_sheet};
