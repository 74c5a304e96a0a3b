// The lines of a report of a mask table, as they rise, and its last line.
ghost use Rattle.std.specs.Prelude.{◌≡◌, cond, ◌+◌, ◌*◌, ◌<◌, eqb};
ghost use Rattle.aes.specs.Byte.{below};
ghost use Rattle.aes.specs.State.{at};
ghost use Rattle.beside.specs.Report.{triples, counts_at, all_counts, least, greatest, picked, last_line};

use crate::count::counts;

// The last line: how many triples are even, and the lowest and the highest count.
#[derive(Clone, Copy)]
pub struct Summary {
    pub even: u16,
    pub lowest: u8,
    pub highest: u8,
}

const TRIPLES: [u8; 168] = *b"\
\x00\x01\x02\x00\x01\x03\x00\x01\x04\x00\x01\x05\x00\x01\x06\x00\x01\x07\x00\x02\x03\x00\x02\x04\
\x00\x02\x05\x00\x02\x06\x00\x02\x07\x00\x03\x04\x00\x03\x05\x00\x03\x06\x00\x03\x07\x00\x04\x05\
\x00\x04\x06\x00\x04\x07\x00\x05\x06\x00\x05\x07\x00\x06\x07\x01\x02\x03\x01\x02\x04\x01\x02\x05\
\x01\x02\x06\x01\x02\x07\x01\x03\x04\x01\x03\x05\x01\x03\x06\x01\x03\x07\x01\x04\x05\x01\x04\x06\
\x01\x04\x07\x01\x05\x06\x01\x05\x07\x01\x06\x07\x02\x03\x04\x02\x03\x05\x02\x03\x06\x02\x03\x07\
\x02\x04\x05\x02\x04\x06\x02\x04\x07\x02\x05\x06\x02\x05\x07\x02\x06\x07\x03\x04\x05\x03\x04\x06\
\x03\x04\x07\x03\x05\x06\x03\x05\x07\x03\x06\x07\x04\x05\x06\x04\x05\x07\x04\x06\x07\x05\x06\x07";

// The 56 triples of bits, as they rise.
pub fn triples() -> [u8; 168]
    ensures { result ≡ triples }
{
    TRIPLES
}

// The counts of 7 rows, 16 bytes and 56 triples of bits as they rise, eight a line, and the last line beside them.
pub fn report(masks: [u8; 16], lines: &mut [u8; 50176]) -> Summary
    ensures { (lines.new ≡ all_counts masks) × ((result.even, result.lowest, result.highest) ≡ last_line masks) }
{
    let list = triples();
    let mut s = Summary {
        even: 0,
        lowest: 16,
        highest: 0,
    };
    for n in 0..6272 {
        let c = line(masks, &list, n);
        lines[8 * n..8 * n + 8].copy_from_slice(&c);
        s = s.with(c);
    }
    s
}

// The counts of one line.
fn line(masks: [u8; 16], list: &[u8; 168], n: usize) -> [u8; 8]
    requires { (list.now ≡ triples) × (n < 6272) }
    ensures { result ≡ counts_at masks n }
{
    let k = 3 * (n % 56);
    counts(
        masks,
        (n / 896 + 1) as u8,
        (n / 56 % 16) as u8,
        list[k],
        list[k + 1],
        list[k + 2],
    )
}

impl Summary {
    // With one line more.
    fn with(self, c: [u8; 8]) -> Summary
        requires { self.even < 6272 }
        ensures { (result.even ≡ self.even + cond (below 8 (λ t. eqb (at c t) 2)) 1 0) × (result.lowest ≡ picked least c 8 self.lowest) × (result.highest ≡ picked greatest c 8 self.highest) }
    {
        let mut two = true;
        let mut lowest = self.lowest;
        let mut highest = self.highest;
        for n in c {
            two = (n == 2) & two;
            lowest = n.min(lowest);
            highest = n.max(highest);
        }
        Summary {
            even: self.even + u16::from(two),
            lowest,
            highest,
        }
    }
}
