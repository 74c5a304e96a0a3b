// The order in which the boxes of a round are called, document 002's: even positions first. So, with the published masks, what a box
// gives and what the next one takes never lie under one mask.
ghost use Rattle.std.specs.Prelude.{◌≡◌, ℕ, ◌+◌, ◌≤◌, ◌<◌, MatchOption};
ghost use Rattle.aes.specs.State.{at};
ghost use Rattle.masks.specs.Order.{boxed_by, box_order, called, places_at};

use crate::label::{Label, Position};

const ORDER: [u8; 16] = *b"\
\x00\x02\x04\x06\x08\x0a\x0c\x0e\x01\x03\x05\x07\x09\x0b\x0d\x0f";

pub(crate) fn positions() -> [u8; 16]
    ensures { result ≡ box_order }
{
    ORDER
}

// A box's turn: how many boxes of the round were called before it. It is neither copied nor let go, and its call alone makes the turn
// that follows, so that whoever begins a round calls each box once, in the order of the list.
pub(crate) struct Turn<'a> {
    order: &'a [u8; 16],
    called: usize,
    ghost as_listed: { order.now ≡ box_order },
    ghost in_list: { called < 16 },
}

impl<'a> Turn<'a> {
    pub(crate) fn first(order: &'a [u8; 16]) -> Turn<'a>
        requires { order.now ≡ box_order }
        ensures { result.called ≡ 0 }
    {
        Turn { order, called: 0 }
    }

    // Has the byte of s at the next position of the list answered by the box over it, and gives the turn that follows; behind the
    // last box there is none.
    pub(crate) fn call(
        self,
        t: &mut [u8; 16],
        s: &[u8; 16],
        boxes: &[u8; 4096],
        places: &[u16; 256],
        l: Label,
    ) -> Option<Turn<'a>>
        requires { (i : ℕ) → i < 16 → at (places_at places.now l.0) i ≤ 3840 }
        ensures answered { t.new ≡ called (boxed_by boxes.now (places_at places.now l.0) s.now) self.entry.called t.old }
        ensures followed { MatchOption result (self.entry.called ≡ 15) (λ next. next.called ≡ self.entry.called + 1) }
    {
        let p = self.position();
        let i = p.read();
        t[i] = entry(boxes, l.over(places, p), s[i]);
        self.next()
    }

    // The position whose turn it is.
    fn position(&self) -> Position
        ensures { (result.0 ≡ at box_order self.now.called) × (result.0 < 16) }
    {
        Position::listed(self.order[self.called])
    }

    fn next(self) -> Option<Turn<'a>>
        ensures { MatchOption result (self.entry.called ≡ 15) (λ next. next.called ≡ self.entry.called + 1) }
    {
        let Turn { order, called } = self;
        if called < 15 {
            Some(Turn {
                order,
                called: called + 1,
            })
        } else {
            None
        }
    }
}

// What the box that begins there answers to a covered byte.
fn entry(boxes: &[u8; 4096], start: usize, x: u8) -> u8
    requires { start ≤ 3840 }
    ensures { result ≡ at boxes.now (start + x) }
{
    boxes[start + x as usize]
}
