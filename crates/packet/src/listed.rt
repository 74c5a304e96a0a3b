// Packets whose lengths and list are right: those of a listed PID are scrambled, descrambled or refused, and all others copied.
ghost use Rattle.std.specs.Prelude.{◌≡◌, true, false, ◌<◌, length};
ghost use Rattle.aes.specs.Refusal.{reply};
ghost use Rattle.packet.specs.Packet.{field_right, parity, pipe_of};
ghost use Rattle.packet.specs.Way.{is_back, odd_of};
ghost use Rattle.packet.specs.Calls.{answered_of};

use crate::header::Packet;
use crate::pipes::Pipes;
use crate::way::Way;
use aes::reply::Refusal;
use cbc::copy;

// A packet of pipe k, whose adaptation field is right.
#[derive(Drop)]
pub(crate) struct Listed<'a> {
    pub(crate) packet: Packet<'a>,
    pub(crate) pipes: Pipes<'a>,
    pub(crate) k: usize,
    ghost own: { k ≡ pipe_of pipes.bytes.now packet.bytes.now },
    ghost listed: { k < 7 },
    ghost right: { field_right packet.bytes.now ≡ true },
}

// How long the lent packet is stays a requires: a value that lends it on would stand with its entry and its exit in each promise.
pub(crate) fn answered(
    way: Way,
    packet: Packet,
    pipes: Pipes,
    out: &mut [u8],
) -> Result<(), Refusal>
    requires { length out.old ≡ 188 }
    ensures { (reply result, out.new) ≡ answered_of (is_back way) packet.entry.bytes.now out.old pipes.entry.bytes.now (odd_of way) }
{
    let Some(k) = pipes.pipe_of(packet.pid()) else {
        copy(packet.bytes, out);
        return Ok(());
    };
    if !packet.field_right() {
        return Err(Refusal::FieldWrong);
    }
    let listed = &Listed { packet, pipes, k };
    match way {
        Way::Scramble(odd) => listed.scrambled(odd, out),
        Way::Descramble => listed.descrambled(out),
    }
}

impl Listed<'_> {
    fn scrambled(&self, odd: bool, out: &mut [u8]) -> Result<(), Refusal>
        requires { length out.old ≡ 188 }
        ensures { (reply result, out.new) ≡ answered_of false self.now.packet.bytes.now out.old self.now.pipes.bytes.now odd }
    {
        if self.packet.bits() != 0 {
            return Err(Refusal::BitsWrong);
        }
        if !self.packet.is_long() {
            copy(self.packet.bytes, out);
            return Ok(());
        }
        self.changed(false, odd, out);
        Ok(())
    }

    fn descrambled(&self, out: &mut [u8]) -> Result<(), Refusal>
        requires { length out.old ≡ 188 }
        ensures { (reply result, out.new) ≡ answered_of true self.now.packet.bytes.now out.old self.now.pipes.bytes.now false }
    {
        let bits = self.packet.bits();
        if bits == 0 {
            copy(self.packet.bytes, out);
            return Ok(());
        }
        let opens = (2 <= bits) & self.packet.is_long();
        if !opens {
            return Err(Refusal::BitsWrong);
        }
        self.changed(true, bits == 3, out);
        Ok(())
    }
}
