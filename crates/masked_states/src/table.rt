// The rows of the table.
use lines::vector::Way;

#[derive(Clone, Copy)]
pub enum Row {
    Published,
    Other,
    PublishedInverse,
    OtherInverse,
    Steps,
}

pub const TITLE: &str = "AES-256 vectors, recorded masked runs";

// The names of the rows, in their order.
pub const ROWS: [&str; 5] = [
    "published masks: C.3 states",
    "other masks: C.3 states",
    "published masks: C.3 inverse states",
    "other masks: C.3 inverse states",
    "replies to a step",
];

impl Row {
    // Those of the states of a record, over the published masks and over others.
    pub fn of(way: Way) -> (Row, Row) {
        match way {
            Way::Encrypt => (Row::Published, Row::Other),
            Way::Decrypt => (Row::PublishedInverse, Row::OtherInverse),
        }
    }
}
