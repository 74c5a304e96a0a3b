// The masked calls, and what they check alike.
mod checked;
mod chosen;
pub mod decrypt;
pub mod encrypt;
pub mod many;
pub mod one;
pub mod record;
