// The upper crate: the masked calls. The module's engine.
#![tactic(auto)]

mod calls;

pub use calls::decrypt::{decrypt_masked, decrypt_published, record_masked_decryption};
pub use calls::encrypt::{encrypt_masked, encrypt_published};
pub use calls::many::encrypt_blocks;
pub use calls::one::{decrypt_one, encrypt_one};
pub use calls::record::record_masked;
