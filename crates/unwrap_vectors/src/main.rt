// Runs the vectors of standard input on the calls that unwrap, by the plain engine and by the masked one at every offset, and prints
// how many of each source were run and how many differ. A damaged wrapped key must be refused.
#![tactic(auto)]

mod table;

use aes::reply::Refusal;
use lines::counts::Counts;
use lines::source::Source;
use table::Row;
use wrap_lines::trial::{Engine, Trial};

fn main(rt: HostRuntime) {
    lines::program::run(&rt, table::TITLE, &table::ROWS, one_line);
}

fn one_line(source: Source, line: &[u8], _below: &[u8], counts: &mut Counts) -> Option<()> {
    let (trial, plain, masked) = match source {
        Source::RfcWrap => (Trial::unwrapped(line)?, Row::PlainRfc, Row::MaskedRfc),
        Source::NistWrap => (Trial::unwrapped(line)?, Row::PlainNist, Row::MaskedNist),
        Source::DamagedWrap => (Trial::damaged(line)?, Row::PlainDamaged, Row::MaskedDamaged),
        _ => return None,
    };
    let (by_plain, by_masked) = trial.run(unwrapped);
    counts.add(plain as usize, by_plain);
    counts.add(masked as usize, by_masked);
    Some(())
}

fn unwrapped(
    engine: Engine,
    schedule: &[u8],
    wrapped: &[u8],
    room: &mut [u8],
) -> Result<(), Refusal> {
    match engine {
        Engine::Plain => wrap::unwrap(schedule, wrapped, room),
        Engine::Masked(offset) => wrap::unwrap_masked(schedule, wrapped, room, offset),
    }
}
