// The calls, both ways.
use crate::buffers::{PIDS, Place, UNTOUCHED};
use crate::message::Message;
use crate::table::Row;
use lines::counts::Counts;
use lines::source::Source;
use lines::vector::Way;

const WAYS: [Way; 2] = [Way::Encrypt, Way::Decrypt];

// Makes the calls, both ways, under the even and the odd schedule, in seven pipes, with 0 to 15 bytes behind the blocks, except where
// a packet has no room, and counts what came of them. Where the key is refused, a schedule of zeros leads to differences.
pub fn run(source: Source, message: &Message, counts: &mut Counts) {
    let mut schedule = [0; 240];
    let _ = aes::expand_key(&message.row.key.room, &mut schedule);
    for rest in 0..16 {
        let size = 16 * message.blocks + rest;
        if size <= 184 {
            for pipe in 0..PIDS.len() {
                for odd in [false, true] {
                    let place = Place {
                        pipe,
                        odd,
                        start: 188 - size,
                        end: 188 - rest,
                    };
                    for way in WAYS {
                        let right = right(way, message, &schedule, &place);
                        counts.count(Row::of(source, way, odd) as usize, right);
                    }
                }
            }
        }
    }
}

// Whether a call makes of the packet in clear the scrambled one, or of that the packet in clear.
fn right(way: Way, message: &Message, schedule: &[u8; 240], place: &Place) -> bool {
    let odd = place.odd;
    let clear = place.packet(0, message.row.plain.as_flattened());
    let bits = if odd { 0xc0 } else { 0x80 };
    let sent = place.packet(bits, message.row.cipher.as_flattened());
    let list = place.list(schedule, &message.start);
    let list = list.as_flattened();
    let mut output = [UNTOUCHED; 188];
    let (outcome, expected) = match way {
        Way::Encrypt => (packet::scramble(&clear, &mut output, list, odd), sent),
        Way::Decrypt => (packet::descramble(&sent, &mut output, list), clear),
    };
    outcome.is_ok() & (output == expected)
}
