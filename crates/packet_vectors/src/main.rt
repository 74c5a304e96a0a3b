// Runs the vectors of standard input on the calls of the packet scrambler, each in many packets, and prints how many packets of each
// source were run and how many differ.
#![tactic(auto)]

mod buffers;
mod calls;
mod message;
mod table;

use lines::counts::Counts;
use lines::source::Source;
use message::Message;

fn main(rt: HostRuntime) {
    lines::program::run(&rt, table::TITLE, &table::ROWS, one_line);
}

fn one_line(source: Source, line: &[u8], below: &[u8], counts: &mut Counts) -> Option<()> {
    let message = match source {
        Source::Ecb => Message::chained(line, below)?,
        Source::Cbc => Message::read(line)?,
        _ => return None,
    };
    calls::run(source, &message, counts);
    Some(())
}
