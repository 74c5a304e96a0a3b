// A pipe's key made by the rack: the key and block of FIPS 197, C.3, expanded, encrypted, recorded and decrypted.
use std::io::Print;

pub fn job(rt: &impl Print) {
    let key =
        b"\x00\x01\x02\x03\x04\x05\x06\x07\x08\x09\x0a\x0b\x0c\x0d\x0e\x0f\x10\x11\x12\x13\x14\x15\x16\x17\x18\x19\x1a\x1b\x1c\x1d\x1e\x1f";
    let block = b"\x00\x11\x22\x33\x44\x55\x66\x77\x88\x99\xaa\xbb\xcc\xdd\xee\xff";
    let mut schedule = [0; 240];
    let _ = aes::expand_key(key, &mut schedule);
    let _ = print!(rt;
        "The rack's job on the example of FIPS 197, C.3: bytes in hex\n\n  key         "
    );
    hex(rt, key);
    let _ = print!(rt; "\n  block       ");
    hex(rt, block);
    let _ = print!(rt; "\n");
    states(rt, &schedule, block);
    crossed(rt, &schedule, block);
}

// Encrypted, and decrypted again.
fn crossed(rt: &impl Print, schedule: &[u8], block: &[u8]) {
    let mut there = [0; 16];
    let mut back = [0; 16];
    let _ = aes::encrypt(schedule, block, &mut there);
    let _ = aes::decrypt(schedule, &there, &mut back);
    let _ = print!(rt; "  ciphertext  ");
    hex(rt, &there);
    let _ = print!(rt; "\n  decrypted   ");
    hex(rt, &back);
    let _ = print!(rt; "\n");
}

// The 71 recorded states, five to a round.
fn states(rt: &impl Print, schedule: &[u8], block: &[u8]) {
    let mut record = [0; 1136];
    let _ = aes::record_plain(schedule, block, &mut record);
    let (states, _) = record.as_chunks::<16>();
    for (q, state) in states.iter().enumerate() {
        let name = match (q, q % 5) {
            (0, _) => "  input       ",
            (69, _) => "   key 14     ",
            (_, 1) => "\n  start       ",
            (_, 2) => "   boxes      ",
            (_, 3) => "   shifted    ",
            (_, 4) => "   mixed      ",
            _ => "   end        ",
        };
        let _ = print!(rt; "{name}");
        hex(rt, state);
        let _ = print!(rt; "\n");
    }
}

// Two digits a byte.
fn hex(rt: &impl Print, bytes: &[u8]) {
    for byte in bytes {
        let _ = print!(rt; "{byte:02x}");
    }
}
