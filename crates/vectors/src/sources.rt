// The sources: a function for each kind of line reads it, runs the vector and counts it.
use crate::c3;
use crate::calls::leads;
use crate::stored::converted;
use crate::table::Row;
use covers::key::Schedule;
use lines::counts::Counts;
use lines::source::Source;
use lines::text::field;
use lines::vector::{Key, Length, Vector, Way};

// Runs a line, where it can be read.
pub fn one_line(source: Source, line: &[u8], _below: &[u8], counts: &mut Counts) -> Option<()> {
    match source {
        Source::Ecb => ecb(line, counts),
        Source::KeyExpansion => key_expansion(line, counts),
        Source::Rounds(Way::Encrypt) => c3::state(line, counts),
        Source::Chain(way) => {
            let v = Vector::read(line)?;
            counts.count(Row::of_chains(way) as usize, leads(way, 1000, &v));
            Some(())
        }
        _ => None,
    }
}

// Both ways, and as early modules stored it, which had keys of 32 bytes.
fn ecb(line: &[u8], counts: &mut Counts) -> Option<()> {
    let v = Vector::read(line)?;
    let length = v.key.length;
    for way in [Way::Encrypt, Way::Decrypt] {
        counts.count(Row::of_ecb(way, length) as usize, leads(way, 1, &v));
    }
    if length == Length::Long {
        counts.add(Row::Converted as usize, converted(&v));
    }
    Some(())
}

// A key and its schedule.
fn key_expansion(line: &[u8], counts: &mut Counts) -> Option<()> {
    let key = Key::read(field(line, 0))?;
    let length = key.length;
    let schedule = Schedule::read(length, field(line, 1))?;
    if line.len() != 2 * length.key() + 2 * length.schedule() + 1 {
        return None;
    }
    counts.count(Row::KeyExpansion as usize, Schedule::of(&key) == schedule);
    Some(())
}
