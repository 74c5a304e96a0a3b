// The buffer before the first step of wrapping, and after the last of unwrapping.
ghost use Rattle.std.specs.Prelude.{◌≡◌, [], ◌∷◌, ◌++◌, ◌+◌, ◌≤◌, eqb, length, get_or};
ghost use Rattle.aes.specs.Byte.{below};
ghost use Rattle.aes.specs.Reply.{answer, is_intact};
ghost use Rattle.aes.specs.Refusal.{reply};
ghost use Rattle.buffer.specs.Wrap.{initial};

use crate::values::copy;
use aes::reply::Refusal;

const INITIAL: u8 = 0xa6;

// The initial value, and the key data behind it.
pub fn laid(keys: &[u8], buffer: &mut [u8])
    requires { (length buffer.old ≡ length keys.now + 8) × (length keys.now ≤ 256) }
    ensures { buffer.new ≡ initial ++ keys.now }
{
    buffer[..8].fill(INITIAL);
    copy(keys, &mut buffer[8..]);
}

// Key data is handed out where the register beside it is right.
pub fn handed_out(register: &[u8], recovered: &[u8], keys: &mut [u8]) -> Result<(), Refusal>
    requires { (length register.now ≡ 8) × (length keys.old ≡ length recovered.now) }
    ensures { (reply result, keys.new) ≡ answer (is_intact register.now ∷ []) keys.old recovered.now }
{
    if !intact(register) {
        return Err(Refusal::Integrity);
    }
    keys.copy_from_slice(recovered);
    Ok(())
}

// Whether a register is the initial value. Every byte is looked at, whatever the others are.
fn intact(register: &[u8]) -> bool
    requires { length register.now ≡ 8 }
    ensures { result ≡ below 8 (λ i. eqb (get_or register.now i 0) 0xa6) }
{
    let mut same = true;
    for byte in register {
        same &= *byte == INITIAL;
    }
    same
}
