// The rack's job on FIPS 197's own example, and worked examples of the field under it. What each line should be is in the file
// stdout beside src/: C.3 as docs/DECISIONS.md, 40, has it, and the place named at the end of the line.
#![tactic(auto)]

mod rack;

use aes::reply::Refusal;
use aes::tables;
use aes::tables::entry;
use std::io::Print;

// Each word goes out by itself. One that cannot be written is missing from what the program is held to; what follows is written all the same.
fn main(rt: HostRuntime) {
    rack::job(&rt);
    let _ = print!(rt; "\nThe field under the cipher\n\n");
    products(&rt);
    boxes(&rt);
    powers(&rt);
    logarithms(&rt);
}

fn products(rt: &impl Print) {
    value(rt, "57 times 83", aes::multiply(0x57, 0x83), "FIPS 4.2");
    value(rt, "57 times 13", aes::multiply(0x57, 0x13), "FIPS 4.2");
    value(rt, "57 times 02", aes::multiply(0x57, 0x02), "FIPS 4.2");
    value(rt, "ae times 02", aes::multiply(0xae, 0x02), "FIPS 4.2");
    value(
        rt,
        "00 times ff",
        aes::multiply(0x00, 0xff),
        "00 is a factor",
    );
    value(rt, "inverse of 53", aes::inverse(0x53), "53 times ca is 01");
    value(rt, "inverse of 00", aes::inverse(0x00), "FIPS 5.1.1");
}

fn boxes(rt: &impl Print) {
    let sbox = tables::sbox();
    let inv_sbox = tables::inv_sbox();
    value(rt, "S of 00", entry(&sbox, 0x00), "FIPS 5.1.1");
    value(rt, "S of 53", entry(&sbox, 0x53), "FIPS 5.1.1");
    value(rt, "inverse S of ed", entry(&inv_sbox, 0xed), "FIPS 5.3.2");
}

fn powers(rt: &impl Print) {
    answer(rt, "power 0", aes::power(0), "");
    answer(rt, "power 1", aes::power(1), "the generator");
    answer(rt, "power 254", aes::power(254), "03 times f6 is 01");
    answer(rt, "power 255", aes::power(255), "254 is the last");
}

fn logarithms(rt: &impl Print) {
    answer(rt, "logarithm of 01", aes::logarithm(0x01), "");
    answer(
        rt,
        "logarithm of f6",
        aes::logarithm(0xf6),
        "254 in decimal",
    );
    answer(rt, "logarithm of 00", aes::logarithm(0x00), "00 has none");
}

fn value(rt: &impl Print, name: &str, value: u8, ground: &str) {
    column(rt, name);
    let _ = print!(rt; "{value:02x}");
    ending(rt, ground);
}

// A value; a refusal shows its number in place of one.
fn answer(rt: &impl Print, name: &str, got: Result<u8, Refusal>, ground: &str) {
    match got {
        Ok(found) => value(rt, name, found, ground),
        Err(refusal) => {
            column(rt, name);
            let _ = print!(rt; "refused, reply ");
            let _ = print!(rt; "{}", refusal as u8);
            ending(rt, ground)
        }
    }
}

// A name, and blanks up to the column of the values.
fn column(rt: &impl Print, name: &str) {
    let _ = print!(rt; "  ");
    let _ = print!(rt; "{name}");
    if let Some(blanks) = b"                  ".get(name.len()..) {
        let _ = rt.write_all(blanks);
    }
}

// The place that a value is from, where one is named.
fn ending(rt: &impl Print, ground: &str) {
    if !ground.is_empty() {
        let _ = print!(rt; "   ");
        let _ = print!(rt; "{ground}");
    }
    let _ = print!(rt; "\n");
}
