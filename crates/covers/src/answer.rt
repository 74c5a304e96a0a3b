// What comes of a call that writes a block.
use aes::reply::Refusal;

// The block, or why there is none.
pub type Answer = Result<[u8; 16], Refusal>;

// That of a call that is lent room for the block. What is in the room before is no vector's block.
pub fn answer<F: FnOnce(&mut [u8; 16]) -> Result<(), Refusal>>(call: F) -> Answer
    requires { F.IsAlwaysCallable call }
{
    let mut output = [0xa5; 16];
    call(&mut output)?;
    Ok(output)
}
