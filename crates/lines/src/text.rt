// Reading the text. Its lines end at newlines, a line's fields at single spaces.
ghost use Rattle.std.specs.Prelude.{length};
ghost use Rattle.std.specs.Iterator.{at_most};

// Field n of a line, from 0; empty where the line has fewer.
pub fn field(line: &[u8], n: usize) -> &[u8] {
    line.split(|c| *c == b' ').nth(n).unwrap_or(&[])
}

// The lines of a text. A newline ends the last one: none follows it.
#[derive(Clone, Copy)]
pub struct Lines<'a> {
    pub text: &'a [u8],
}

impl<'a> Iterator for Lines<'a> {
    type Item = &'a [u8];

    ghost remaining = { λ s. at_most (length s.text.now) };

    fn next(&mut self) -> Option<&'a [u8]> {
        let text = self.text;
        if text.is_empty() {
            return None;
        }
        let (line, below) = match text.iter().position(|c| *c == b'\n') {
            Some(end) => (&text[..end], &text[end + 1..]),
            None => (text, &text[..0]),
        };
        self.text = below;
        Some(line)
    }
}

// Which line of a list this one is, from 0.
pub fn place_of(line: &[u8], list: &[u8]) -> Option<usize> {
    list.split(|c| *c == b'\n').position(|other| other == line)
}

// The bytes that a field spells, two digits each, where they fill the room for them.
pub fn read_hex(field: &[u8], out: &mut [u8]) -> Option<()> {
    let (pairs, rest) = field.as_chunks::<2>();
    if (pairs.len() != out.len()) | !rest.is_empty() {
        return None;
    }
    for (byte, [high, low]) in out.iter_mut().zip(pairs) {
        *byte = digit(*high)? << 4 | digit(*low)?;
    }
    Some(())
}

// The same, of so many bytes.
pub fn hex<const N: usize>(field: &[u8]) -> Option<[u8; N]> {
    let mut r = [0; N];
    read_hex(field, &mut r)?;
    Some(r)
}

// The value of a hex digit, in lower case alone: `to_digit` would read capitals too.
fn digit(c: u8) -> Option<u8> {
    match c {
        b'0'..=b'9' => Some(c - b'0'),
        b'a'..=b'f' => Some(c - b'a' + 10),
        _ => None,
    }
}
