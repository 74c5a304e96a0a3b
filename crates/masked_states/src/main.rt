// Holds the records of masked runs to the states of FIPS 197 appendix C.3, of standard input, at every offset with every step, and
// prints how many were run and how many differ.
#![tactic(auto)]

mod c3;
mod record;
mod table;

use covers::trial::Trial;
use lines::counts::Counts;
use lines::source::Source;
use lines::vector::Way;
use table::Row;

fn main(rt: HostRuntime) {
    lines::program::run(&rt, table::TITLE, &table::ROWS, one_line);
}

fn one_line(source: Source, line: &[u8], _below: &[u8], counts: &mut Counts) -> Option<()> {
    match source {
        Source::Rounds(way) => c3::state(way, line, counts),
        Source::Step => {
            let trial = Trial::of_step(line)?;
            // Of either record.
            for way in [Way::Encrypt, Way::Decrypt] {
                counts.add(Row::Steps as usize, record::run(way, 0, &trial));
            }
            Some(())
        }
        _ => None,
    }
}
