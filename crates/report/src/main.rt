// The report of a mask table, before a sheet is shipped: one sheet on standard input; a line for each row, byte and triple of bits, and
// a last one, where all of them could be written. Where the reader refuses the sheet, its number alone.
#![tactic(auto)]

use lines::page::Page;
use std::io;
use std::io::Print;

fn main(rt: HostRuntime) {
    // All of standard input is the sheet: one byte more than the longest is as wrong as any more.
    let mut room = [0; 23];
    let sheet = lines::input::fill(&mut rt.stdin(), &mut room);
    let mut table = [0; 16];
    let read = masks::read_sheet(sheet, &mut table);
    // A program has no status of its own to tell of a lost line: what follows it is left out.
    let _ = match read {
        Ok(_) => print(&rt, table),
        Err(refusal) => print!(rt; "{}\n", refusal as u8),
    };
}

fn print(rt: &impl Print, table: [u8; 16]) -> io::Result<()> {
    let mut lines = [0; 50176];
    let summary = beside::report(table, &mut lines);
    let triples = beside::triples();
    let (triples, _) = triples.as_chunks::<3>();
    let (counts, _) = lines.as_chunks::<8>();
    // There are sixteen bytes to a row, and 56 triples to a byte. The lines of a byte go out in one write.
    for (row, counts) in (1u8..8).zip(counts.chunks(16 * 56)) {
        for (byte, counts) in (0u8..16).zip(counts.chunks(56)) {
            let mut page = Page::empty();
            for (triple, counts) in triples.iter().zip(counts) {
                lay_line(&mut page, row, byte, triple, counts);
            }
            rt.write_all(page.text())?;
        }
    }
    let even = summary.even;
    let lowest = summary.lowest;
    let highest = summary.highest;
    print!(rt; "{even} {lowest} {highest}\n")
}

fn lay_line(page: &mut Page, row: u8, byte: u8, triple: &[u8; 3], counts: &[u8; 8]) {
    page.number(row);
    page.number(byte);
    for bit in triple {
        page.number(*bit);
    }
    for n in counts {
        page.number(*n);
    }
    page.end_line();
}
