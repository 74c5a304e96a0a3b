// The example of FIPS 197 appendix C.3: one key, one block, and every state on the way to the last, of the cipher and of the inverse
// cipher.
use crate::text::{field, hex, place_of};
use crate::vector::Way;

// A state stands at its number in the record; a round key, at its own number after those of the cipher.
pub const SCHEDULED: usize = 71;

pub const KEY: [u8; 32] = *b"\
\x00\x01\x02\x03\x04\x05\x06\x07\x08\x09\x0a\x0b\x0c\x0d\x0e\x0f\
\x10\x11\x12\x13\x14\x15\x16\x17\x18\x19\x1a\x1b\x1c\x1d\x1e\x1f";

// The state of a line, and where it stands.
#[derive(Clone, Copy)]
pub struct State {
    pub place: usize,
    pub bytes: [u8; 16],
}

// The input of the cipher, and that of the inverse cipher.
pub fn block(way: Way) -> [u8; 16] {
    match way {
        Way::Encrypt => *b"\x00\x11\x22\x33\x44\x55\x66\x77\x88\x99\xaa\xbb\xcc\xdd\xee\xff",
        Way::Decrypt => *b"\x8e\xa2\xb7\xca\x51\x67\x45\xbf\xea\xfc\x49\x90\x4b\x49\x60\x89",
    }
}

impl State {
    // A line is a round, the name of a state and the state.
    pub fn read(line: &[u8], way: Way) -> Option<State> {
        let name = line.get(..line.len().checked_sub(33)?)?;
        Some(State {
            place: place(name, way)?,
            bytes: hex(field(line, 2))?,
        })
    }
}

// Where the state of this name stands, which a line has before its 32 digits and a space. Where a list has -, the appendix prints no
// state.
fn place(name: &[u8], way: Way) -> Option<usize> {
    match way {
        Way::Encrypt => place_of(
            name,
            b"\
0 input\n\
1 start\n1 s_box\n1 s_row\n1 m_col\n-\n\
2 start\n2 s_box\n2 s_row\n2 m_col\n-\n\
3 start\n3 s_box\n3 s_row\n3 m_col\n-\n\
4 start\n4 s_box\n4 s_row\n4 m_col\n-\n\
5 start\n5 s_box\n5 s_row\n5 m_col\n-\n\
6 start\n6 s_box\n6 s_row\n6 m_col\n-\n\
7 start\n7 s_box\n7 s_row\n7 m_col\n-\n\
8 start\n8 s_box\n8 s_row\n8 m_col\n-\n\
9 start\n9 s_box\n9 s_row\n9 m_col\n-\n\
10 start\n10 s_box\n10 s_row\n10 m_col\n-\n\
11 start\n11 s_box\n11 s_row\n11 m_col\n-\n\
12 start\n12 s_box\n12 s_row\n12 m_col\n-\n\
13 start\n13 s_box\n13 s_row\n13 m_col\n-\n\
14 start\n14 s_box\n14 s_row\n-\n14 output\n\
0 k_sch\n1 k_sch\n2 k_sch\n3 k_sch\n4 k_sch\n5 k_sch\n6 k_sch\n7 k_sch\n\
8 k_sch\n9 k_sch\n10 k_sch\n11 k_sch\n12 k_sch\n13 k_sch\n14 k_sch",
        ),
        Way::Decrypt => place_of(
            name,
            b"\
0 iinput\n1 istart\n\
1 is_row\n-\n1 is_box\n1 ik_add\n2 istart\n-\n\
2 is_row\n-\n2 is_box\n2 ik_add\n3 istart\n-\n\
3 is_row\n-\n3 is_box\n3 ik_add\n4 istart\n-\n\
4 is_row\n-\n4 is_box\n4 ik_add\n5 istart\n-\n\
5 is_row\n-\n5 is_box\n5 ik_add\n6 istart\n-\n\
6 is_row\n-\n6 is_box\n6 ik_add\n7 istart\n-\n\
7 is_row\n-\n7 is_box\n7 ik_add\n8 istart\n-\n\
8 is_row\n-\n8 is_box\n8 ik_add\n9 istart\n-\n\
9 is_row\n-\n9 is_box\n9 ik_add\n10 istart\n-\n\
10 is_row\n-\n10 is_box\n10 ik_add\n11 istart\n-\n\
11 is_row\n-\n11 is_box\n11 ik_add\n12 istart\n-\n\
12 is_row\n-\n12 is_box\n12 ik_add\n13 istart\n-\n\
13 is_row\n-\n13 is_box\n13 ik_add\n14 istart\n-\n\
14 is_row\n-\n14 is_box\n-\n14 ioutput\n-",
        ),
    }
}

// The state of number n in a row of them; zeros, which the example has nowhere, where it does not go so far.
pub fn state_at(states: &[u8], n: usize) -> [u8; 16] {
    states.as_chunks().0.get(n).copied().unwrap_or([0; 16])
}
