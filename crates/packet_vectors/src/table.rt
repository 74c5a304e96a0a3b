// The rows of the table. Each source has four: both ways, even and odd.
use lines::source::Source;
use lines::vector::Way;

#[derive(Clone, Copy)]
pub enum Row {
    ChainedEven,
    ChainedOdd,
    ChainedBackEven,
    ChainedBackOdd,
    CbcEven,
    CbcOdd,
    CbcBackEven,
    CbcBackOdd,
}

pub const TITLE: &str = "AES-256 vectors, packets";

// The names of the rows, in their order.
pub const ROWS: [&str; 8] = [
    "NIST ECB, chained, scrambled, even",
    "NIST ECB, chained, scrambled, odd",
    "NIST ECB, chained, descrambled, even",
    "NIST ECB, chained, descrambled, odd",
    "SP 800-38A F.2.5, scrambled, even",
    "SP 800-38A F.2.5, scrambled, odd",
    "SP 800-38A F.2.6, descrambled, even",
    "SP 800-38A F.2.6, descrambled, odd",
];

impl Row {
    pub fn of(source: Source, way: Way, odd: bool) -> Row {
        match (source, way, odd) {
            (Source::Ecb, Way::Encrypt, false) => Row::ChainedEven,
            (Source::Ecb, Way::Encrypt, true) => Row::ChainedOdd,
            (Source::Ecb, Way::Decrypt, false) => Row::ChainedBackEven,
            (Source::Ecb, Way::Decrypt, true) => Row::ChainedBackOdd,
            (_, Way::Encrypt, false) => Row::CbcEven,
            (_, Way::Encrypt, true) => Row::CbcOdd,
            (_, Way::Decrypt, false) => Row::CbcBackEven,
            (_, Way::Decrypt, true) => Row::CbcBackOdd,
        }
    }
}
