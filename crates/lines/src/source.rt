// The sources of vectors. A line that starts with # is a header, which names the source of the lines below it; each other line is
// one vector.
use crate::vector::Way;

#[derive(Clone, Copy)]
pub enum Source {
    Ecb,
    KeyExpansion,
    Rounds(Way),
    Chain(Way),
    Step,
    RfcWrap,
    NistWrap,
    DamagedWrap,
    Cbc,
}

impl Source {
    // The source that a header names.
    pub fn of_header(line: &[u8]) -> Option<Source> {
        match line {
            b"# ecb" => Some(Source::Ecb),
            b"# key expansion" => Some(Source::KeyExpansion),
            b"# rounds" => Some(Source::Rounds(Way::Encrypt)),
            b"# inverse rounds" => Some(Source::Rounds(Way::Decrypt)),
            b"# chain encrypt" => Some(Source::Chain(Way::Encrypt)),
            b"# chain decrypt" => Some(Source::Chain(Way::Decrypt)),
            b"# steps" => Some(Source::Step),
            b"# wrap rfc" => Some(Source::RfcWrap),
            b"# wrap nist" => Some(Source::NistWrap),
            b"# wrap damaged" => Some(Source::DamagedWrap),
            b"# cbc" => Some(Source::Cbc),
            _ => None,
        }
    }
}
