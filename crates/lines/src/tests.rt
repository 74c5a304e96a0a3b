// What a table writes, which no clause can say.
use crate::counts::Counts;
use std::cell::Cell;
use std::fmt::Display;
use std::io::{Print, Result};
use std::str;

const TITLE: &str = "A title whose length is forty-one columns";

const NAME: &str = "A name that takes up thirty-nine places";

// A sum of what is written, in which each byte counts by its place, and how many writes there were.
#[derive(Drop)]
struct Written {
    sum: Cell<u64>,
    writes: Cell<u64>,
}

impl Written {
    fn nothing() -> Written {
        Written {
            sum: Cell::new(0),
            writes: Cell::new(0),
        }
    }
}

impl Print for Written {
    // A table goes out as bytes alone.
    fn print<D: Display + Drop>(&self, _value: D) -> Result<()> {
        Ok(())
    }

    fn println<D: Display + Drop>(&self, _value: D) -> Result<()> {
        Ok(())
    }

    fn write_all(&self, bytes: &[u8]) -> Result<()> {
        let mut sum = self.sum.get();
        for byte in bytes {
            sum = sum.wrapping_mul(257).wrapping_add(u64::from(*byte) + 1);
        }
        self.sum.set(sum);
        self.writes.set(self.writes.get().wrapping_add(1));
        Ok(())
    }

    fn write_some(&self, bytes: &[u8]) -> Result<usize> {
        self.write_all(bytes.get(..7).unwrap_or(bytes))?;
        Ok(bytes.len().min(7))
    }
}

// The table of one row: what it is of in the first forty-one columns, or in more where that is longer, and two numbers in nine each.
fn write_table(out: &Written, title: &str, name: &str) -> Result<()> {
    for part in [
        title,
        "      run   differ\n  ",
        name,
        "        0        0\n",
        "  all                                            0        0\n",
        "lines that could not be read                     0\n",
    ] {
        out.write_all(part.as_bytes())?;
    }
    Ok(())
}

#[test]
fn table_is_whole(rt: HostRuntime) {
    let text = [b'x'; 3000];
    let long = str::from_utf8(&text).unwrap_or("");
    // With this title the table fills a page to its last byte.
    let whole = long.get(..2722).unwrap_or("");
    for (title, name, writes) in [
        (TITLE, NAME, 1),
        (whole, NAME, 1),
        (long, NAME, 2),
        (TITLE, long, 2),
        (long, long, 3),
    ] {
        let want = Written::nothing();
        let _ = write_table(&want, title, name);
        let out = Written::nothing();
        Counts::none().print(&out, title, &[name]);
        assert_eq!(rt; out.sum.get(), want.sum.get());
        assert_eq!(rt; out.writes.get(), writes);
    }
}
