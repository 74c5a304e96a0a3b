// The states of FIPS 197 appendix C.3, in the schedule and in the record of a plain run.
use crate::table::Row;
use lines::c3::{KEY, SCHEDULED, State, block, state_at};
use lines::counts::Counts;
use lines::vector::Way;

pub fn state(line: &[u8], counts: &mut Counts) -> Option<()> {
    let state = State::read(line, Way::Encrypt)?;
    counts.count(
        Row::States as usize,
        found(state.place) == Some(state.bytes),
    );
    Some(())
}

// What the library has in a state's place.
fn found(place: usize) -> Option<[u8; 16]> {
    let mut schedule = [0; 240];
    aes::expand_key(&KEY, &mut schedule).ok()?;
    if SCHEDULED <= place {
        return Some(state_at(&schedule, place - SCHEDULED));
    }
    let mut record = [0; 1136];
    aes::record_plain(&schedule, &block(Way::Encrypt), &mut record).ok()?;
    Some(state_at(&record, place))
}
