// What was run, what differed and what could not be read, up to the line that a program has come to, and the table of it.
use crate::page::{Page, Pages};
use std::fmt;
use std::fmt::Write;
use std::io::Print;

// How many vectors were run, and how many differed. The input is too short for a count to wrap.
#[derive(Clone, Copy, Default)]
pub struct Tally {
    run: u64,
    differ: u64,
}

impl Tally {
    // With one vector more.
    pub fn with(self, same: bool) -> Tally {
        self.plus(Tally {
            run: 1,
            differ: u64::from(!same),
        })
    }

    fn plus(self, more: Tally) -> Tally {
        Tally {
            run: self.run.wrapping_add(more.run),
            differ: self.differ.wrapping_add(more.differ),
        }
    }
}

// As many rows as a table may have.
const ROWS: usize = 16;

// The rows, and how many lines there were and how many of these could not be read.
#[derive(Clone, Copy)]
pub struct Counts {
    rows: [Tally; ROWS],
    lines: u64,
    unread: u64,
}

impl Counts {
    pub fn none() -> Counts {
        Counts {
            rows: [Tally::default(); ROWS],
            lines: 0,
            unread: 0,
        }
    }

    // Adds to a row.
    pub fn add(&mut self, row: usize, tally: Tally) {
        if let Some(own) = self.rows.get_mut(row) {
            *own = own.plus(tally);
        }
    }

    // The same for one vector.
    pub fn count(&mut self, row: usize, same: bool) {
        self.add(row, Tally::default().with(same));
    }

    // Counts a line, and says that it could not be read, where that is so. What is not written is missing from what the program is
    // held to.
    pub fn report(&mut self, rt: &impl Print, read: Option<()>) {
        self.lines = self.lines.wrapping_add(1);
        if read.is_none() {
            self.unread = self.unread.wrapping_add(1);
            let line = self.lines;
            let mut page = Page::empty();
            let _ = write!(page, "line {line:>6} could not be read\n");
            let _ = rt.write_some(page.text());
        }
    }

    // Prints the table, however long: a header, the rows by their names and one for all, with columns that end at byte 49 and 58, and a
    // last line for what could not be read.
    pub fn print(&self, rt: &impl Print, title: &str, names: &[&str]) {
        let mut pages = Pages::of(rt);
        let _ = self.lay(&mut pages, title, names);
        pages.end();
    }

    // The same in one write. What a page has no room for is left out, and so is what the write leaves.
    pub fn print_page(&self, rt: &impl Print, title: &str, names: &[&str]) {
        let mut page = Page::empty();
        let _ = self.lay(&mut page, title, names);
        let _ = rt.write_some(page.text());
    }

    fn lay(&self, page: &mut impl Write, title: &str, names: &[&str]) -> fmt::Result {
        write!(page, "{title:<41}      run   differ\n")?;
        let mut all = Tally::default();
        for (name, tally) in names.iter().zip(self.rows.iter()) {
            lay_row(page, name, *tally)?;
            all = all.plus(*tally);
        }
        lay_row(page, "all", all)?;
        let unread = self.unread;
        write!(
            page,
            "lines that could not be read             {unread:>9}\n"
        )
    }
}

fn lay_row(page: &mut impl Write, name: &str, tally: Tally) -> fmt::Result {
    let run = tally.run;
    let differ = tally.differ;
    write!(page, "  {name:<39}{run:>9}{differ:>9}\n")
}
