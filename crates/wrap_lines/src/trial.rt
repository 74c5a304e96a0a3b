// What a line asks of a call, which is made by the plain engine and by the masked one at every offset.
use crate::room::Room;
use aes::reply::Refusal;
use lines::counts::Tally;
use lines::text::{field, hex};

// The masked engine has an offset.
#[derive(Clone, Copy)]
pub enum Engine {
    Plain,
    Masked(u8),
}

// As long as a key of a line is with the space after it.
const KEY: usize = 65;

// What the calls are given, how they should end, and what they should leave in a room.
#[derive(Clone, Copy)]
pub struct Trial {
    schedule: [u8; 240],
    given: Room,
    outcome: Result<(), Refusal>,
    left: Room,
}

impl Trial {
    // Where the key of a line is refused, a schedule of zeros leads to differences.
    fn new(line: &[u8], given: Room, outcome: Result<(), Refusal>, left: Room) -> Option<Trial> {
        let key: [u8; 32] = hex(field(line, 0))?;
        let mut schedule = [0; 240];
        let _ = aes::expand_key(&key, &mut schedule);
        Some(Trial {
            schedule,
            given,
            outcome,
            left,
        })
    }

    // Of a key, key data and the wrapped key that they make: those two.
    fn both(line: &[u8]) -> Option<(Room, Room)> {
        let key_data = Room::of_field(field(line, 1))?;
        let wrapped = Room::of_field(field(line, 2))?;
        if line.len() != KEY + 2 * key_data.size() + 1 + 2 * wrapped.size() {
            return None;
        }
        Some((key_data, wrapped))
    }

    pub fn wrapped(line: &[u8]) -> Option<Trial> {
        let (key_data, wrapped) = Trial::both(line)?;
        Trial::new(line, key_data, Ok(()), wrapped)
    }

    pub fn unwrapped(line: &[u8]) -> Option<Trial> {
        let (key_data, wrapped) = Trial::both(line)?;
        Trial::new(line, wrapped, Ok(()), key_data)
    }

    // A key and a damaged wrapped key: the room for key data, which would be eight bytes less, should stay untouched.
    pub fn damaged(line: &[u8]) -> Option<Trial> {
        let wrapped = Room::of_field(field(line, 1))?;
        if line.len() != KEY + 2 * wrapped.size() {
            return None;
        }
        let key_data = Room::untouched(wrapped.size().saturating_sub(8));
        Trial::new(line, wrapped, Err(Refusal::Integrity), key_data)
    }

    // What comes of the call of the plain engine, and of those of the masked one at all offsets. A call is given a schedule and what it
    // should cross, and room for what that makes.
    pub fn run<F: Fn(Engine, &[u8], &[u8], &mut [u8]) -> Result<(), Refusal>>(
        &self,
        call: F,
    ) -> (Tally, Tally)
        requires { F.IsAlwaysCallable call }
    {
        let mut masked = Tally::default();
        for offset in 0..16 {
            masked = masked.with(self.right(&call, Engine::Masked(offset)));
        }
        (
            Tally::default().with(self.right(&call, Engine::Plain)),
            masked,
        )
    }

    fn right<F: Fn(Engine, &[u8], &[u8], &mut [u8]) -> Result<(), Refusal>>(
        &self,
        call: &F,
        engine: Engine,
    ) -> bool
        requires { F.IsAlwaysCallable call.now }
    {
        let (left, outcome) = Room::of(self.left.size(), |room| {
            call(engine, &self.schedule, self.given.front(), room)
        });
        (outcome == self.outcome) & (left == self.left)
    }
}
