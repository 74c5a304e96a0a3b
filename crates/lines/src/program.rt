// What all programs of vectors do.
use crate::counts::Counts;
use crate::input;
use crate::source::Source;
use crate::text::Lines;
use std::io::{Input, Print};

// Runs each line of standard input, and prints what came of them in a table. `one` is given the source of a line, the line and those
// below it; it runs the vector, counts it, and answers whether the line could be read.
pub fn run<F: Fn(Source, &[u8], &[u8], &mut Counts) -> Option<()>>(
    rt: &(impl Input + Print),
    title: &str,
    rows: &[&str],
    one: F,
)
    requires { F.IsAlwaysCallable one }
{
    let mut room = [0; 196608];
    let text = input::read(rt, &mut room);
    let mut counts = Counts::none();
    let mut source = None;
    let mut lines = Lines { text };
    // No `for`, which would keep from `one` what stands below a line.
    while let Some(line) = lines.next() {
        let named = Source::of_header(line);
        // A header that is not known names no source.
        if named.is_some() | line.starts_with(b"#") {
            source = named;
        }
        let read = match source {
            _ if named.is_some() => Some(()),
            Some(source) => one(source, line, lines.text, &mut counts),
            None => None,
        };
        counts.report(rt, read);
    }
    counts.print_page(rt, title, rows);
}
