// The rows of the table, of which the vectors of ECB have one for each length of a key.
use lines::vector::{Length, Way};

#[derive(Clone, Copy)]
pub enum Row {
    Ecb128Encrypted,
    Ecb192Encrypted,
    Ecb256Encrypted,
    Ecb128Decrypted,
    Ecb192Decrypted,
    Ecb256Decrypted,
    KeyExpansion,
    States,
    ChainsEncrypted,
    ChainsDecrypted,
    Converted,
}

pub const TITLE: &str = "AES vectors, plain engine";

// The names of the rows, in their order.
pub const ROWS: [&str; 11] = [
    "NIST ECB, 128 bits, encrypted",
    "NIST ECB, 192 bits, encrypted",
    "NIST ECB, 256 bits, encrypted",
    "NIST ECB, 128 bits, decrypted",
    "NIST ECB, 192 bits, decrypted",
    "NIST ECB, 256 bits, decrypted",
    "FIPS 197 A.1 to A.3 key expansion",
    "FIPS 197 C.3 states",
    "Monte Carlo chains, encrypted",
    "Monte Carlo chains, decrypted",
    "NIST ECB, converted from form 1",
];

impl Row {
    pub fn of_ecb(way: Way, length: Length) -> Row {
        match (way, length) {
            (Way::Encrypt, Length::Short) => Row::Ecb128Encrypted,
            (Way::Encrypt, Length::Middle) => Row::Ecb192Encrypted,
            (Way::Encrypt, Length::Long) => Row::Ecb256Encrypted,
            (Way::Decrypt, Length::Short) => Row::Ecb128Decrypted,
            (Way::Decrypt, Length::Middle) => Row::Ecb192Decrypted,
            (Way::Decrypt, Length::Long) => Row::Ecb256Decrypted,
        }
    }

    pub fn of_chains(way: Way) -> Row {
        match way {
            Way::Encrypt => Row::ChainsEncrypted,
            Way::Decrypt => Row::ChainsDecrypted,
        }
    }
}
