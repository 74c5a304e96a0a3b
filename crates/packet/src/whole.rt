// A packet of a listed pipe, whose whole blocks go through CBC.
ghost use Rattle.std.specs.Prelude.{◌≡◌, cond, ◌≤◌, length};
ghost use Rattle.packet.specs.Packet.{start, parity, changed};

use crate::listed::Listed;
use cbc::cbc;

impl Listed<'_> {
    pub(crate) fn changed(&self, back: bool, odd: bool, out: &mut [u8])
        requires { (length out.old ≡ 188) × (start self.now.packet.bytes.now ≤ 172) }
        ensures { out.new ≡ changed back (cond back 0 (parity odd)) odd self.now.pipes.bytes.now self.now.k self.now.packet.bytes.now }
    {
        let s = self.packet.start();
        let n = (188 - s) / 16;
        let e = s + 16 * n;
        let schedule = self.pipes.schedule(self.k, odd);
        let start = self.pipes.starting_block(self.k);
        let bits = if back { 0 } else { parity(odd) };
        self.packet.marked(bits, out);
        cbc(
            back,
            schedule,
            start,
            &self.packet.bytes[s..e],
            &mut out[s..e],
            n,
        );
    }
}

// The bits that say even or odd.
fn parity(odd: bool) -> u8
    ensures { result ≡ parity odd }
{
    if odd { 3 } else { 2 }
}
