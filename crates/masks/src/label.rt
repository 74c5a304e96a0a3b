// A state position, a label, and the offsets of sixteen bytes. Each is a type whose number this file alone reads and makes, so that one
// given for another does not compile. A label is counted modulo 16, and what other crates call asks nothing of its caller; where a number
// is below 16 already its remainder costs nothing.
ghost use Rattle.std.specs.Prelude.{◌≡◌, ℕ, ◌+◌, ◌%◌, ◌<◌};
ghost use Rattle.aes.specs.State.{at};
ghost use Rattle.masks.specs.Mask.{one, covers_of};
ghost use Rattle.masks.specs.Order.{places_of, places_at};

use crate::constants::twice;

#[derive(Clone, Copy)]
pub(crate) struct Position(usize);

#[derive(Clone, Copy)]
pub struct Label(usize);

// The offsets of a record.
#[derive(Clone, Copy)]
pub struct Offsets([u8; 16]);

impl Position {
    // The one that an entry of a list names.
    pub(crate) fn listed(entry: u8) -> Position
        ensures { result.0 ≡ entry }
    {
        Position(entry as usize)
    }

    // Which byte of a state stands there.
    pub(crate) fn read(self) -> usize
        ensures { result ≡ self.0 }
    {
        self.0
    }
}

impl Label {
    pub(crate) const FIRST: Label = Label(0);

    // The label that an offset names.
    pub fn make(offset: u8) -> Label
        ensures { result.0 ≡ offset % 16 }
    {
        Label(offset as usize % 16)
    }

    // The label that follows, so many on.
    pub fn next(self, by: u8) -> Label
        ensures { (result.0 ≡ (self.0 + by) % 16) × (result.0 < 16) }
    {
        Label((self.0 % 16 + by as usize) % 16)
    }

    // Where the box over the byte at a position begins, where the places of a record lie in rows, label after label.
    pub(crate) fn over(self, places: &[u16; 256], p: Position) -> usize
        requires { p.0 < 16 }
        ensures { result ≡ at (places_at places.now self.0) p.0 }
    {
        places[16 * (self.0 % 16) + p.0] as usize
    }

    // Which of sixteen masks, boxes or constants has this label.
    pub fn read(self) -> usize
        ensures { result ≡ self.0 }
    {
        self.0
    }
}

impl Offsets {
    // Those of the record of offset 0.
    pub fn of_zero() -> Offsets
        ensures { result.0 ≡ one 0 }
    {
        Offsets(*b"\x00\x01\x02\x03\x04\x05\x06\x07\x08\x09\x0a\x0b\x0c\x0d\x0e\x0f")
    }

    pub fn make(offsets: [u8; 16]) -> Offsets
        ensures { result.0 ≡ offsets }
    {
        Offsets(offsets)
    }

    // Where the boxes over the sixteen bytes begin, label after label, to the lent place.
    pub fn places(self, r: &mut [u16; 256])
        ensures { r.new ≡ places_of self.0 }
    {
        for k in 0..16 {
            let by = 256 * k as u16;
            for i in 0..16 {
                r[16 * k + i] = (256 * (self.0[i] as u16 % 16) + by) % 4096;
            }
        }
    }

    // The masks over the sixteen bytes, label after label, to the lent place: each byte has the masks from its offset on.
    pub fn covers(self, masks: [u8; 16], r: &mut [u8; 256])
        ensures { r.new ≡ covers_of masks self.0 }
    {
        let masks = twice(masks);
        for i in 0..16 {
            let from = self.0[i] as usize % 16;
            for k in 0..16 {
                r[16 * k + i] = masks[from + k];
            }
        }
    }
}
