// Key data wrapped, and a wrapped key opened, whose lengths are right.
ghost use Rattle.std.specs.Prelude.{◌≡◌, [], ◌∷◌, ◌+◌, ◌*◌, length, take, drop};
ghost use Rattle.aes.specs.Reply.{answer, is_intact};
ghost use Rattle.aes.specs.Refusal.{reply};
ghost use Rattle.buffer.specs.Wrap.{wrapped, unwrapped};
ghost use Rattle.wrap.specs.Engines.{sealed, opened};

use crate::engine::Keyed;
use aes::reply::Refusal;
use buffer::{handed_out, laid};

impl Keyed<'_> {
    pub(crate) fn seal(&self, keys: &[u8], out: &mut [u8])
        requires { (length keys.now ≡ 8 * self.now.n) × (length out.old ≡ 8 * self.now.n + 8) }
        ensures { out.new ≡ wrapped (sealed self.now.engine self.now.schedule.now) keys.now }
    {
        laid(keys, out);
        self.wrap_steps(out);
    }

    // The steps are made in a scratch, so that the key data is written only where the register is right.
    pub(crate) fn unseal(&self, wrapped: &[u8], keys: &mut [u8]) -> Result<(), Refusal>
        requires { (length keys.old ≡ 8 * self.now.n) × (length wrapped.now ≡ 8 * self.now.n + 8) }
        ensures { (reply result, keys.new) ≡ answer (is_intact (take 8 (unwrapped (opened self.now.engine self.now.schedule.now) wrapped.now)) ∷ []) keys.old (drop 8 (unwrapped (opened self.now.engine self.now.schedule.now) wrapped.now)) }
    {
        let mut scratch = [0u8; 264];
        self.opened_in(wrapped, &mut scratch[..wrapped.len()], keys)
    }

    fn opened_in(&self, wrapped: &[u8], scratch: &mut [u8], keys: &mut [u8]) -> Result<(), Refusal>
        requires { (length keys.old ≡ 8 * self.now.n) × (length wrapped.now ≡ 8 * self.now.n + 8) × (length scratch.old ≡ 8 * self.now.n + 8) }
        ensures { (reply result, keys.new) ≡ answer (is_intact (take 8 (unwrapped (opened self.now.engine self.now.schedule.now) wrapped.now)) ∷ []) keys.old (drop 8 (unwrapped (opened self.now.engine self.now.schedule.now) wrapped.now)) }
    {
        scratch.copy_from_slice(wrapped);
        self.unwrap_steps(scratch);
        let buffer = &scratch[..];
        handed_out(&buffer[..8], &buffer[8..], keys)
    }
}
