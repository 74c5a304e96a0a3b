// The rows of the table, of which the vectors of ECB have one for each length of a key.
use lines::source::Source;
use lines::vector::Length;

#[derive(Clone, Copy)]
pub enum Row {
    PublishedEcb128,
    PublishedEcb192,
    PublishedEcb256,
    PublishedChains,
    ManyEcb128,
    ManyEcb192,
    ManyEcb256,
    OtherEcb128,
    OtherEcb192,
    OtherEcb256,
    OtherChains,
    Steps,
}

pub const TITLE: &str = "AES vectors, masked engine";

// The names of the rows, in their order.
pub const ROWS: [&str; 12] = [
    "published masks: NIST ECB, 128 bits",
    "published masks: NIST ECB, 192 bits",
    "published masks: NIST ECB, 256 bits",
    "published masks: chains",
    "many blocks: NIST ECB, 128 bits",
    "many blocks: NIST ECB, 192 bits",
    "many blocks: NIST ECB, 256 bits",
    "other masks: NIST ECB, 128 bits",
    "other masks: NIST ECB, 192 bits",
    "other masks: NIST ECB, 256 bits",
    "other masks: chains",
    "replies to a step",
];

impl Row {
    // Those of a line, with the published masks and with others.
    pub fn of(source: Source, length: Length) -> (Row, Row) {
        match (source, length) {
            (Source::Ecb, Length::Short) => (Row::PublishedEcb128, Row::OtherEcb128),
            (Source::Ecb, Length::Middle) => (Row::PublishedEcb192, Row::OtherEcb192),
            (Source::Ecb, Length::Long) => (Row::PublishedEcb256, Row::OtherEcb256),
            (Source::Chain(_), _) => (Row::PublishedChains, Row::OtherChains),
            _ => (Row::Steps, Row::Steps),
        }
    }

    pub fn of_many(length: Length) -> Row {
        match length {
            Length::Short => Row::ManyEcb128,
            Length::Middle => Row::ManyEcb192,
            Length::Long => Row::ManyEcb256,
        }
    }
}
