// What the boxes of a round answer to a state. It is apart from the order, whose turns it can only take as they come.
ghost use Rattle.std.specs.Prelude.{◌≡◌, ℕ, ◌≤◌, ◌<◌};
ghost use Rattle.aes.specs.State.{at};
ghost use Rattle.masks.specs.Order.{boxed_by, places_at};

use crate::label::Label;
use crate::order::{Turn, positions};

// Byte i by the box over it, where the boxes of this label begin, in the order of the list.
pub fn answers(s: [u8; 16], boxes: &[u8; 4096], places: &[u16; 256], l: Label) -> [u8; 16]
    requires { (i : ℕ) → i < 16 → at (places_at places.now l.0) i ≤ 3840 }
    ensures { result ≡ boxed_by boxes.now (places_at places.now l.0) s }
{
    let order = positions();
    let mut t = [0u8; 16];
    let mut turn = Some(Turn::first(&order));
    while let Some(next) = turn {
        turn = next.call(&mut t, &s, boxes, places, l);
    }
    t
}
