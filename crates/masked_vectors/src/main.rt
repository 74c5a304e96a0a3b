// Runs the vectors of standard input on the calls of the masked engine that encrypt, at every offset with every step, and prints
// how many of each source were run and how many differ.
#![tactic(auto)]

mod calls;
mod many;
mod table;

use covers::trial::Trial;
use lines::counts::Counts;
use lines::row;
use lines::source::Source;
use lines::vector::{Vector, Way};
use table::Row;

fn main(rt: HostRuntime) {
    lines::program::run(&rt, table::TITLE, &table::ROWS, one_line);
}

// By either call of one block; and the vectors of ECB all of a row together, and a step, by that of many.
fn one_line(source: Source, line: &[u8], below: &[u8], counts: &mut Counts) -> Option<()> {
    let trial = Trial::of_line(source, Way::Encrypt, line)?;
    let length = trial.schedule.length;
    let (published, other) = Row::of(source, length);
    counts.add(published as usize, trial.run(calls::published));
    counts.add(other as usize, trial.run(calls::masked));
    match source {
        Source::Ecb => {
            let row = row::Row::of(Vector::read(line)?, below);
            counts.add(Row::of_many(length) as usize, many::encrypted(&row));
        }
        Source::Step => counts.add(Row::Steps as usize, trial.run(many::replied)),
        _ => {}
    }
    Some(())
}
