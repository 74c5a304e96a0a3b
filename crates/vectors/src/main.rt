// Runs the vectors of standard input on the plain engine, and on the converter, which makes its blocks of stored ones, and prints
// how many of each source were run and how many differ.
#![tactic(auto)]

mod c3;
mod calls;
mod sources;
mod stored;
mod table;

fn main(rt: HostRuntime) {
    lines::program::run(&rt, table::TITLE, &table::ROWS, sources::one_line);
}
