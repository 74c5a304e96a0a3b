// Runs the vectors of standard input on the calls of the masked engine that decrypt, at every offset with every step, and prints
// how many of each source were run and how many differ.
#![tactic(auto)]

mod calls;
mod table;

use covers::trial::Trial;
use lines::counts::Counts;
use lines::source::Source;
use lines::vector::Way;
use table::Row;

fn main(rt: HostRuntime) {
    lines::program::run(&rt, table::TITLE, &table::ROWS, one_line);
}

// By either call.
fn one_line(source: Source, line: &[u8], _below: &[u8], counts: &mut Counts) -> Option<()> {
    let trial = Trial::of_line(source, Way::Decrypt, line)?;
    let (published, other) = Row::of(source, trial.schedule.length);
    counts.add(published as usize, trial.run(calls::published));
    counts.add(other as usize, trial.run(calls::masked));
    Some(())
}
