// The steps of wrapping and unwrapping, in a lent buffer.
ghost use Rattle.std.specs.Prelude.{◌≡◌, ◌+◌, ◌*◌, ◌<◌, length};
ghost use Rattle.buffer.specs.Wrap.{place, wrap_step, unwrap_step, wrap_steps, unwrap_steps};
ghost use Rattle.wrap.specs.Engines.{sealed, opened};

use crate::engine::Keyed;
use buffer::{counted, gather, scatter};

impl Keyed<'_> {
    // All steps of wrapping, t = 1 to 6 n.
    pub(crate) fn wrap_steps(&self, buffer: &mut [u8])
        requires { length buffer.old ≡ 8 * self.now.n + 8 }
        ensures { buffer.new ≡ wrap_steps (sealed self.now.engine self.now.schedule.now) self.now.n (6 * self.now.n) buffer.old }
    {
        for k in 0..6 * self.n {
            self.wrap_step(buffer, k);
        }
    }

    // All steps of unwrapping, t = 6 n to 1.
    pub(crate) fn unwrap_steps(&self, buffer: &mut [u8])
        requires { length buffer.old ≡ 8 * self.now.n + 8 }
        ensures { buffer.new ≡ unwrap_steps (opened self.now.engine self.now.schedule.now) self.now.n (6 * self.now.n) buffer.old }
    {
        for k in (0..6 * self.n).rev() {
            self.unwrap_step(buffer, k);
        }
    }

    // Step t = k + 1, at R[i].
    fn wrap_step(&self, buffer: &mut [u8], k: usize)
        requires { (length buffer.old ≡ 8 * self.now.n + 8) × (k < 6 * self.now.n) }
        ensures { buffer.new ≡ wrap_step (sealed self.now.engine self.now.schedule.now) (place self.now.n k) (k + 1) buffer.old }
    {
        let i = k % self.n + 1;
        let b = self.sealed(gather(buffer, i));
        scatter(counted(b, k + 1), buffer, i);
    }

    // The counter goes before the engine here, and behind it above: so each way keeps a step of its own.
    fn unwrap_step(&self, buffer: &mut [u8], k: usize)
        requires { (length buffer.old ≡ 8 * self.now.n + 8) × (k < 6 * self.now.n) }
        ensures { buffer.new ≡ unwrap_step (opened self.now.engine self.now.schedule.now) (place self.now.n k) (k + 1) buffer.old }
    {
        let i = k % self.n + 1;
        let a = counted(gather(buffer, i), k + 1);
        scatter(self.opened(a), buffer, i);
    }
}
