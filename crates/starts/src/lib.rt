// Masked runs from a start, over what is stored for the published masks or what is worked out for lent ones.
#![tactic(auto)]

mod given;
mod many;
mod published;

pub use given::{decrypted, decryption_recorded, encrypted, recorded};
pub use many::each;
pub use published::{sealed, unsealed};
