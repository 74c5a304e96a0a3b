// What a call shows where it makes a block or masks of what it was lent. Runs do not stand on this crate, so none of them can show it:
// a run that makes a block or masks does not compile.
#![tactic(auto)]

#[derive(Clone, Copy)]
pub struct Caller {}
