// The rows of the table.
#[derive(Clone, Copy)]
pub enum Row {
    PlainRfc,
    PlainNist,
    MaskedRfc,
    MaskedNist,
}

pub const TITLE: &str = "AES-256 vectors, wrapping";

// The names of the rows, in their order.
pub const ROWS: [&str; 4] = [
    "plain engine: RFC 3394",
    "plain engine: NIST key wrap",
    "masked engine: RFC 3394",
    "masked engine: NIST key wrap",
];
