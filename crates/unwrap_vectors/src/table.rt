// The rows of the table.
#[derive(Clone, Copy)]
pub enum Row {
    PlainRfc,
    PlainNist,
    PlainDamaged,
    MaskedRfc,
    MaskedNist,
    MaskedDamaged,
}

pub const TITLE: &str = "AES-256 vectors, unwrapping";

// The names of the rows, in their order.
pub const ROWS: [&str; 6] = [
    "plain engine: RFC 3394",
    "plain engine: NIST key wrap",
    "plain engine: NIST, damaged, refused",
    "masked engine: RFC 3394",
    "masked engine: NIST key wrap",
    "masked engine: NIST, damaged, refused",
];
