// Key wrap of RFC 3394 with AES-256, over either engine.
#![tactic(auto)]

mod calls;
mod engine;
mod steps;
mod whole;

pub use calls::{unwrap, unwrap_masked, wrap, wrap_masked};
