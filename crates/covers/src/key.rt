// Schedules of keys of three lengths.
use lines::text::read_hex;
use lines::vector::{Key, Length};

// A schedule, in room for the longest. Zeros follow one that is shorter.
#[derive(Clone, Copy, PartialEq)]
pub struct Schedule {
    pub length: Length,
    room: [u8; 240],
}

impl Schedule {
    // Where the key is refused, there are zeros alone, which lead to differences.
    pub fn of(key: &Key) -> Schedule {
        let mut room = [0; 240];
        let _ = aes::expand_key(key.bytes(), &mut room[..key.length.schedule()]);
        Schedule {
            length: key.length,
            room,
        }
    }

    // That of a key of this length, as a field spells it.
    pub fn read(length: Length, field: &[u8]) -> Option<Schedule> {
        let mut room = [0; 240];
        read_hex(field, &mut room[..length.schedule()])?;
        Some(Schedule { length, room })
    }

    pub fn bytes(&self) -> &[u8] {
        &self.room[..self.length.schedule()]
    }
}
