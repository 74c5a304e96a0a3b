// What a masked call is lent, each a type: the block, where labels begin, and the masks. To make one a caller shows itself, which the calls
// and what begins their runs alone can do; a run has those that it is given, and is told nothing of them except what is made here.
ghost use Rattle.std.specs.Prelude.{◌≡◌, true, ◌+◌, ◌%◌, ◌<◌, length, None};
ghost use Rattle.aes.specs.Box.{s_box, inv_s_box};
ghost use Rattle.masks.specs.Mask.{one, published, ◌⊞◌, mask, covers_of, masked_boxes, compensation, after_rows, after_columns, constants};
ghost use Rattle.masks.specs.Order.{boxes_at, boxed_by, places_of};
ghost use Rattle.masks.specs.Kinds.{constant_of};
ghost use Rattle.lent.specs.Started.{is_one, start_of, offsets_of};

use crate::blocks::sixteen;
use crate::tables::{Decryption, Encryption, Laid};
use aes::add;
use caller::Caller;
use masks::answers::answers;
use masks::constants::Kind;
use masks::label::{Label, Offsets};
use masks::{boxes, constants};

// A block, bare.
#[derive(Clone, Copy)]
pub struct Block([u8; 16]);

// Where the labels of a run begin: at offsets, so many labels on. Of the record of one offset o these are the offsets of 0, for which
// there is a name, and they are o on. Of any other record they are its own, and not on.
#[derive(Clone, Copy)]
pub struct Start {
    offsets: Option<Offsets>,
    on: u8,
}

// Sixteen masks, the step by which their labels advance, and where these begin. What is made of them is lent beside them.
#[derive(Clone, Copy)]
pub struct Masks {
    bytes: [u8; 16],
    step: u8,
    start: Start,
}

impl Block {
    pub fn lent(_caller: Caller, input: &[u8]) -> Block
        requires { length input.now ≡ 16 }
        ensures { result.0 ≡ input.now }
    {
        Block(sixteen(input, 0))
    }

    // Under the masks of a label.
    pub fn under(self, masks: Masks, covers: &[u8; 256], l: Label) -> [u8; 16]
        requires { covers.now ≡ covers_of masks.bytes (offsets_of masks) }
        ensures { result ≡ self.0 ⊞ mask masks.bytes (offsets_of masks) l.0 }
    {
        add(self.0, masks.mask(covers, l))
    }
}

impl Start {
    // With one offset.
    pub fn one(_caller: Caller, offset: u8) -> Start
        ensures { result ≡ record { offsets = None; on = offset } }
    {
        Start {
            offsets: None,
            on: offset,
        }
    }

    // With an offset for each byte.
    pub fn lent(caller: Caller, offsets: &[u8]) -> Start
        requires { length offsets.now ≡ 16 }
        ensures { result ≡ start_of offsets.now }
    {
        let v = sixteen(offsets, 0);
        if is_one(v) {
            return Start::one(caller, v[0]);
        }
        Start {
            offsets: Some(Offsets::make(v)),
            on: 0,
        }
    }

    // The label with which a run begins.
    pub fn first(self) -> Label
        ensures { result.0 ≡ self.on % 16 }
    {
        Label::make(self.on)
    }
}

// Whether the offsets are those of one. All sixteen are compared: `all` of an iterator would end at the first that differs.
fn is_one(v: [u8; 16]) -> bool
    ensures { result ≡ is_one v }
{
    let o = v[0] % 16;
    let mut r = true;
    for i in 0..16 {
        r = (v[i] == (o + i as u8) % 16) & r;
    }
    r
}

impl Masks {
    pub fn published(_caller: Caller, step: u8, start: Start) -> Masks
        ensures { result ≡ record { bytes = published; step = step; start = start } }
    {
        Masks {
            bytes: constants::published(),
            step: step,
            start: start,
        }
    }

    pub fn lent(_caller: Caller, masks: &[u8], step: u8, start: Start) -> Masks
        requires { length masks.now ≡ 16 }
        ensures { result ≡ record { bytes = masks.now; step = step; start = start } }
    {
        Masks {
            bytes: sixteen(masks, 0),
            step: step,
            start: start,
        }
    }

    // The label with which a run begins.
    pub fn first(self) -> Label
        ensures { result.0 ≡ self.start.on % 16 }
    {
        self.start.first()
    }

    // The masks over a state, so many labels on.
    pub fn mask(self, covers: &[u8; 256], l: Label) -> [u8; 16]
        requires { covers.now ≡ covers_of self.bytes (offsets_of self) }
        ensures { result ≡ mask self.bytes (offsets_of self) l.0 }
    {
        sixteen(covers, l.read() % 16)
    }

    // The label that is a step on.
    pub fn advanced(self, l: Label) -> Label
        ensures { result.0 ≡ (l.0 + self.step) % 16 }
    {
        l.next(self.step)
    }

    // What boxes answer to a state, each byte by the one over it.
    pub fn answers(self, s: [u8; 16], boxes: &[u8; 4096], places: &[u16; 256], l: Label) -> [u8; 16]
        requires { places.now ≡ places_of (offsets_of self) }
        ensures { result ≡ boxed_by boxes.now (boxes_at (offsets_of self) l.0) s }
    {
        answers(s, boxes, places, l)
    }

    // The boxes with their step.
    pub fn boxes(self, r: &mut [u8; 4096])
        ensures { r.new ≡ masked_boxes s_box self.bytes self.step }
    {
        boxes::made(self.bytes, self.step, r);
    }

    // The same, over those with step 1, which stay where that is the step.
    pub fn stepped(self, r: &mut [u8; 4096])
        requires { r.old ≡ masked_boxes s_box self.bytes 1 }
        ensures { r.new ≡ masked_boxes s_box self.bytes self.step }
    {
        if self.step != 1 {
            self.boxes(r);
        }
    }

    // The boxes of the inverse of S in the same two ways, for a decryption. They have functions of their own, since tools/steps sees by
    // the functions alone that no encryption comes to the inverse, and no decryption to S.
    pub fn inverse_boxes(self, r: &mut [u8; 4096])
        ensures { r.new ≡ masked_boxes inv_s_box self.bytes self.step }
    {
        boxes::made_inverse(self.bytes, self.step, r);
    }

    pub fn inverse_stepped(self, r: &mut [u8; 4096])
        requires { r.old ≡ masked_boxes inv_s_box self.bytes 1 }
        ensures { r.new ≡ masked_boxes inv_s_box self.bytes self.step }
    {
        if self.step != 1 {
            self.inverse_boxes(r);
        }
    }

    // The masks over a state for each label, and constants, at the offsets of 0.
    pub fn first_covers(self, r: &mut [u8; 256])
        ensures { r.new ≡ covers_of self.bytes (one 0) }
    {
        constants::first_covers(self.bytes, r);
    }

    pub fn first_constants(self, kind: Kind, r: &mut [u8; 256])
        ensures { r.new ≡ constants (constant_of kind) self.bytes (one 0) }
    {
        constants::made(kind, self.bytes, r);
    }

    // Where the boxes begin and the masks over a state, for each label, over those at the offsets of 0, which stay where the offsets are
    // those; and so, of these masks, compensations, and both corrections of a decryption.
    pub fn laid(self, places: &mut [u16; 256], covers: &mut [u8; 256])
        requires { (places.old ≡ places_of (one 0)) × (covers.old ≡ covers_of self.bytes (one 0)) }
        ensures { (places.new ≡ places_of (offsets_of self)) × (covers.new ≡ covers_of self.bytes (offsets_of self)) }
    {
        if let Some(offsets) = self.start.offsets {
            offsets.places(places);
            offsets.covers(self.bytes, covers);
        }
    }

    pub fn compensated(self, covers: &[u8; 256], r: &mut [u8; 256])
        requires { (covers.now ≡ covers_of self.bytes (offsets_of self)) × (r.old ≡ constants compensation self.bytes (one 0)) }
        ensures { r.new ≡ constants compensation self.bytes (offsets_of self) }
    {
        if let Some(_) = self.start.offsets {
            constants::of_covers(Kind::Compensation, covers, r);
        }
    }

    pub fn corrected(self, covers: &[u8; 256], rows: &mut [u8; 256], columns: &mut [u8; 256])
        requires { (covers.now ≡ covers_of self.bytes (offsets_of self)) × (rows.old ≡ constants after_rows self.bytes (one 0)) × (columns.old ≡ constants after_columns self.bytes (one 0)) }
        ensures { (rows.new ≡ constants after_rows self.bytes (offsets_of self)) × (columns.new ≡ constants after_columns self.bytes (offsets_of self)) }
    {
        if let Some(_) = self.start.offsets {
            constants::corrections_of(covers, rows, columns);
        }
    }

    // What a run is lent, over boxes and over what is laid out at the offsets of 0.
    pub fn encryption<'a>(
        self,
        boxes: &'a [u8; 4096],
        places: &'a mut [u16; 256],
        covers: &'a mut [u8; 256],
        compensations: &'a mut [u8; 256],
    ) -> Encryption<'a>
        requires { (boxes.now ≡ masked_boxes s_box self.bytes self.step) × (places.old ≡ places_of (one 0)) × (covers.old ≡ covers_of self.bytes (one 0)) × (compensations.old ≡ constants compensation self.bytes (one 0)) }
        ensures { result.laid.masks ≡ self }
    {
        self.laid(places, covers);
        self.compensated(covers, compensations);
        Encryption {
            laid: Laid {
                masks: self,
                places: places,
                covers: covers,
            },
            boxes: boxes,
            compensations: compensations,
        }
    }

    pub fn decryption<'a>(
        self,
        boxes: &'a [u8; 4096],
        places: &'a mut [u16; 256],
        covers: &'a mut [u8; 256],
        rows: &'a mut [u8; 256],
        columns: &'a mut [u8; 256],
    ) -> Decryption<'a>
        requires { (boxes.now ≡ masked_boxes inv_s_box self.bytes self.step) × (places.old ≡ places_of (one 0)) × (covers.old ≡ covers_of self.bytes (one 0)) × (rows.old ≡ constants after_rows self.bytes (one 0)) × (columns.old ≡ constants after_columns self.bytes (one 0)) }
        ensures { result.laid.masks ≡ self }
    {
        self.laid(places, covers);
        self.corrected(covers, rows, columns);
        Decryption {
            laid: Laid {
                masks: self,
                places: places,
                covers: covers,
            },
            boxes: boxes,
            rows: rows,
            columns: columns,
        }
    }
}
