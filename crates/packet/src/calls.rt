// The calls, and what they check.
ghost use Rattle.std.specs.Prelude.{◌≡◌, length, IfOk};
ghost use Rattle.aes.specs.Reply.{refusal};
ghost use Rattle.aes.specs.Refusal.{reply};
ghost use Rattle.packet.specs.Way.{is_back, odd_of};
ghost use Rattle.packet.specs.Calls.{first_checks, call_of, scramble_of, descramble_of};

use crate::header::Packet;
use crate::listed::answered;
use crate::pipes::Pipes;
use crate::way::Way;
use aes::reply::Refusal;

pub fn scramble(
    packet: &[u8],
    packet_out: &mut [u8],
    pipes: &[u8],
    odd: bool,
) -> Result<(), Refusal>
    ensures { (reply result, packet_out.new) ≡ scramble_of packet.now packet_out.old pipes.now odd }
{
    call(Way::Scramble(odd), packet, packet_out, pipes)
}

pub fn descramble(packet: &[u8], packet_out: &mut [u8], pipes: &[u8]) -> Result<(), Refusal>
    ensures { (reply result, packet_out.new) ≡ descramble_of packet.now packet_out.old pipes.now }
{
    call(Way::Descramble, packet, packet_out, pipes)
}

fn call(way: Way, packet: &[u8], packet_out: &mut [u8], pipes: &[u8]) -> Result<(), Refusal>
    ensures { (reply result, packet_out.new) ≡ call_of (is_back way) packet.now packet_out.old pipes.now (odd_of way) }
{
    let (packet, pipes) = checked(packet, packet_out, pipes)?;
    answered(way, packet, pipes, packet_out)
}

// The checks that are made whatever the PID is, in their order.
fn checked<'a>(
    packet: &'a [u8],
    packet_out: &[u8],
    pipes: &'a [u8],
) -> Result<(Packet<'a>, Pipes<'a>), Refusal>
    ensures told { reply result ≡ refusal (first_checks packet.now packet_out.now pipes.now) }
    ensures lent { IfOk result (λ p. (p.0.bytes.now ≡ packet.now) × (p.1.bytes.now ≡ pipes.now) × (length packet_out.now ≡ 188)) }
{
    if packet.len() != 188 || packet_out.len() != 188 {
        return Err(Refusal::PacketLength);
    }
    if packet[0] != 0x47 {
        return Err(Refusal::SyncLost);
    }
    let packet = Packet { bytes: packet };
    Ok((packet, Pipes::checked(pipes)?))
}
