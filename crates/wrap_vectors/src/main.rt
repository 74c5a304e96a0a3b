// Runs the vectors of standard input on the calls that wrap, by the plain engine and by the masked one at every offset, and prints how
// many of each source were run and how many differ.
#![tactic(auto)]

mod table;

use aes::reply::Refusal;
use lines::counts::Counts;
use lines::source::Source;
use table::Row;
use wrap_lines::trial::{Engine, Trial};

fn main(rt: HostRuntime) {
    lines::program::run(&rt, table::TITLE, &table::ROWS, one_line);
}

fn one_line(source: Source, line: &[u8], _below: &[u8], counts: &mut Counts) -> Option<()> {
    let (plain, masked) = match source {
        Source::RfcWrap => (Row::PlainRfc, Row::MaskedRfc),
        Source::NistWrap => (Row::PlainNist, Row::MaskedNist),
        _ => return None,
    };
    let (by_plain, by_masked) = Trial::wrapped(line)?.run(wrapped);
    counts.add(plain as usize, by_plain);
    counts.add(masked as usize, by_masked);
    Some(())
}

fn wrapped(
    engine: Engine,
    schedule: &[u8],
    key_data: &[u8],
    room: &mut [u8],
) -> Result<(), Refusal> {
    match engine {
        Engine::Plain => wrap::wrap(schedule, key_data, room),
        Engine::Masked(offset) => wrap::wrap_masked(schedule, key_data, room, offset),
    }
}
