// Rooms for key data and for wrapped keys, of which a call is lent the front.
ghost use Rattle.std.specs.Prelude.{◌≤◌};

use lines::text::read_hex;

// As many bytes as a wrapped key may have.
const ROOM: usize = 264;

// What stands in a room where nothing was written.
const UNTOUCHED: u8 = 0xa5;

// How much of the room is lent, and what is in all of it.
#[derive(Clone, Copy, PartialEq)]
pub struct Room {
    size: usize,
    bytes: [u8; ROOM],
    ghost fits: { size ≤ 264 },
}

impl Room {
    // Untouched, except for what is written to the front of this size; and what is answered of that.
    pub fn of<T, F: FnOnce(&mut [u8]) -> T>(size: usize, write: F) -> (Room, T)
        requires fits { size ≤ 264 }
        requires callable { F.IsAlwaysCallable write }
    {
        let mut bytes = [UNTOUCHED; ROOM];
        let answer = write(&mut bytes[..size]);
        (Room { size, bytes }, answer)
    }

    // All of the room at most.
    pub fn untouched(size: usize) -> Room {
        Room {
            size: size.min(ROOM),
            bytes: [UNTOUCHED; ROOM],
        }
    }

    // With the bytes that a field spells at the front.
    pub fn of_field(field: &[u8]) -> Option<Room> {
        let size = field.len() / 2;
        if ROOM < size {
            return None;
        }
        let (room, read) = Room::of(size, |front| read_hex(field, front));
        read?;
        Some(room)
    }

    pub fn size(&self) -> usize
        ensures { result ≤ 264 }
    {
        self.size
    }

    pub fn front(&self) -> &[u8] {
        &self.bytes[..self.size]
    }
}
