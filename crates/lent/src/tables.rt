// What a run reads of its masks and of the schedule, each with what it is made of: so a run is lent no table that belongs to other masks,
// to other offsets or to the other way, and no key but those of the schedule.
ghost use Rattle.std.specs.Prelude.{◌≡◌, true, ◌+◌, ◌*◌, ◌<◌, ◌≤◌, length};
ghost use Rattle.aes.specs.Box.{s_box, inv_s_box};
ghost use Rattle.aes.specs.Key.{round_key, rounds_of};
ghost use Rattle.aes.specs.State.{Bytes};
ghost use Rattle.masks.specs.Mask.{mask, covers_of, masked_boxes, compensation, after_rows, after_columns, constants};
ghost use Rattle.masks.specs.Order.{boxes_at, boxed_by, places_of};
ghost use Rattle.lent.specs.Started.{offsets_of};

use crate::blocks::sixteen;
use crate::given::Masks;
use caller::Caller;
use masks::label::Label;

// A schedule, with the rounds that it is for.
#[derive(Clone, Copy)]
pub struct Schedule<'a> {
    bytes: &'a [u8],
    rounds: usize,
    ghost some: { 0 < rounds },
    ghost few: { rounds < 15 },
    ghost whole: { Bytes (16 * rounds + 16) bytes.now },
}

// Masks, where their boxes begin, and the masks over a state, both for each label on from the offsets.
#[derive(Clone, Copy)]
pub struct Laid<'a> {
    pub masks: Masks,
    pub places: &'a [u16; 256],
    pub covers: &'a [u8; 256],
    ghost whole: { Bytes 16 masks.bytes },
    ghost placed: { places.now ≡ places_of (offsets_of masks) },
    ghost covered: { covers.now ≡ covers_of masks.bytes (offsets_of masks) },
}

// What an encryption is lent.
#[derive(Clone, Copy)]
pub struct Encryption<'a> {
    pub laid: Laid<'a>,
    pub boxes: &'a [u8; 4096],
    pub compensations: &'a [u8; 256],
    ghost boxed: { boxes.now ≡ masked_boxes s_box laid.masks.bytes laid.masks.step },
    ghost compensated: { compensations.now ≡ constants compensation laid.masks.bytes (offsets_of laid.masks) },
}

// What a decryption is lent: boxes of the inverse of S, and two rows of corrections.
#[derive(Clone, Copy)]
pub struct Decryption<'a> {
    pub laid: Laid<'a>,
    pub boxes: &'a [u8; 4096],
    pub rows: &'a [u8; 256],
    pub columns: &'a [u8; 256],
    ghost boxed: { boxes.now ≡ masked_boxes inv_s_box laid.masks.bytes laid.masks.step },
    ghost row_wise: { rows.now ≡ constants after_rows laid.masks.bytes (offsets_of laid.masks) },
    ghost column_wise: { columns.now ≡ constants after_columns laid.masks.bytes (offsets_of laid.masks) },
}

impl Schedule<'_> {
    // Of any rounds from 1 to 14, which its length tells.
    pub fn lent(_caller: Caller, schedule: &[u8]) -> Schedule<'_>
        requires { (0 < rounds_of schedule.now) × (rounds_of schedule.now < 15) × (length schedule.now ≡ 16 * rounds_of schedule.now + 16) }
        ensures { (result.bytes.now ≡ schedule.now) × (result.rounds ≡ rounds_of schedule.now) }
    {
        Schedule {
            bytes: schedule,
            rounds: schedule.len() / 16 - 1,
        }
    }

    pub fn rounds(&self) -> usize
        ensures { result ≡ self.now.rounds }
    {
        self.rounds
    }

    // The key of a round.
    pub fn key(&self, round: usize) -> [u8; 16]
        requires { round ≤ self.now.rounds }
        ensures { result ≡ round_key self.now.bytes.now round }
    {
        sixteen(self.bytes, round)
    }
}

impl Laid<'_> {
    // The masks over a state, so many labels on.
    pub fn mask(&self, l: Label) -> [u8; 16]
        ensures { result ≡ mask self.now.masks.bytes (offsets_of self.now.masks) l.0 }
    {
        self.masks.mask(self.covers, l)
    }

    // What boxes answer to a state, each byte by the one over it.
    pub fn answers(&self, s: [u8; 16], boxes: &[u8; 4096], l: Label) -> [u8; 16]
        ensures { result ≡ boxed_by boxes.now (boxes_at (offsets_of self.now.masks) l.0) s }
    {
        self.masks.answers(s, boxes, self.places, l)
    }
}
