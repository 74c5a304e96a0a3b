// The states of C.3 in the record of a masked run: with all labels each stands at its number, under the mask that lies there.
use crate::record::{length, run};
use crate::table::Row;
use covers::mask::{PUBLISHED, unfit};
use covers::trial::{Asked, Trial};
use lines::c3::{KEY, State, block};
use lines::counts::Counts;
use lines::vector::{Key, Way};

pub fn state(way: Way, line: &[u8], counts: &mut Counts) -> Option<()> {
    let state = State::read(line, way)?;
    if length(way) / 16 <= state.place {
        return None;
    }
    at_place(way, state.place, state.bytes, counts);
    if let Some(again) = again(way, state.place) {
        at_place(way, again, state.bytes, counts);
    }
    Some(())
}

// Where the state stands once more, for which the appendix has no line: what corrects a mixed or shifted state, and the uncovering
// of the last block, change the mask alone.
fn again(way: Way, place: usize) -> Option<usize> {
    match (way, place) {
        (Way::Encrypt, 70) => Some(69),
        (Way::Encrypt, _) if place % 5 == 4 => Some(place + 1),
        (Way::Decrypt, 84..) => Some(83),
        (Way::Decrypt, 1..) if (place % 6 == 0) | (place % 6 == 2) => Some(place + 1),
        _ => None,
    }
}

// Over the published masks, and over others.
fn at_place(way: Way, place: usize, state: [u8; 16], counts: &mut Counts) {
    let (published, other) = Row::of(way);
    for (row, masks) in [(published, PUBLISHED), (other, unfit(state))] {
        let trial = Trial::new(Asked::Block, &Key::long(KEY), masks, block(way), state);
        counts.add(row as usize, run(way, place, &trial));
    }
}
