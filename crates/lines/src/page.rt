// Text that goes out page by page: a page is one write.
ghost use Rattle.std.specs.Prelude.{◌≡◌, [], ◌∷◌, ◌++◌, ◌+◌, ◌-◌, ◌≤◌, ◌<◌, leb, take};
ghost use Rattle.lines.specs.Page.{digit, spelled};

use std::fmt;
use std::io::Print;

// Room for the longest page of a program: 56 lines of thirteen numbers, each of three digits and a space.
const ROOM: usize = 2912;

#[derive(Drop)]
pub struct Page {
    room: [u8; ROOM],
    end: usize,
}

impl Page {
    pub fn empty() -> Page
        ensures { result.end ≡ 0 }
    {
        Page {
            room: [0; ROOM],
            end: 0,
        }
    }

    // A number and a space. By the formats of the language's library a report of a mask table took three times the instructions.
    pub fn number(&mut self, n: u8)
        ensures { self.old.end + 4 ≤ 2912 → take self.new.end self.new.room ≡ take self.old.end self.old.room ++ spelled n }
    {
        if self.end <= ROOM - 4 {
            let tens = digit(&mut self.room, self.end, n, 100);
            let ones = digit(&mut self.room, tens, n, 10);
            let space = put(&mut self.room, ones, b'0' + n % 10);
            self.end = put(&mut self.room, space, b' ');
        }
    }

    // The last space becomes the end of the line.
    pub fn end_line(&mut self)
        ensures { (0 < self.old.end) × (self.old.end ≤ 2912) → take self.new.end self.new.room ≡ take (self.old.end - 1) self.old.room ++ (10 ∷ []) }
    {
        if (0 < self.end) & (self.end <= ROOM) {
            self.room[self.end - 1] = b'\n';
        }
    }

    // Whether there is no room for another byte.
    fn is_full(&self) -> bool
        ensures { result ≡ leb 2912 self.now.end }
    {
        ROOM <= self.end
    }

    pub fn text(&self) -> &[u8]
        ensures { result.now ≡ take self.now.end self.now.room }
    {
        self.room.get(..self.end).unwrap_or(&self.room)
    }

    // What would be past the room is left out.
    fn push(&mut self, byte: u8)
        ensures { self.old.end < 2912 → (self.new.end ≡ self.old.end + 1) × (take self.new.end self.new.room ≡ take self.old.end self.old.room ++ (byte ∷ [])) }
    {
        if self.end < ROOM {
            self.end = put(&mut self.room, self.end, byte);
        }
    }
}

// The digit that counts this unit, but for a zero in front; and where what follows begins.
fn digit(room: &mut [u8; ROOM], end: usize, n: u8, unit: u8) -> usize
    requires { (end < 2912) × (0 < unit) }
    ensures { (result ≤ end + 1) × (take result room.new ≡ take end room.old ++ digit unit n) }
{
    if n >= unit {
        return put(room, end, b'0' + n / unit % 10);
    }
    end
}

fn put(room: &mut [u8; ROOM], end: usize, byte: u8) -> usize
    requires { end < 2912 }
    ensures { (result ≡ end + 1) × (take result room.new ≡ take end room.old ++ (byte ∷ [])) }
{
    room[end] = byte;
    end + 1
}

impl fmt::Write for Page {
    fn write_str(&mut self, s: &str) -> fmt::Result {
        for byte in s.as_bytes() {
            self.push(*byte);
        }
        Ok(())
    }
}

// Text of any length: a page that is full goes out, and the next begins. What cannot be written is left out.
#[derive(Drop)]
pub(crate) struct Pages<'a, R: Print> {
    rt: &'a R,
    page: Page,
}

impl<'a, R: Print> Pages<'a, R> {
    pub(crate) fn of(rt: &'a R) -> Pages<'a, R>
        ensures { result.page.end ≡ 0 }
    {
        Pages {
            rt,
            page: Page::empty(),
        }
    }

    // What stands on the last page goes out too.
    pub(crate) fn end(self) {
        let _ = self.rt.write_all(self.page.text());
    }
}

impl<R: Print> fmt::Write for Pages<'_, R> {
    fn write_str(&mut self, s: &str) -> fmt::Result {
        for byte in s.as_bytes() {
            if self.page.is_full() {
                let _ = self.rt.write_all(self.page.text());
                self.page = Page::empty();
            }
            self.page.push(*byte);
        }
        Ok(())
    }
}
