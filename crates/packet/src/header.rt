// The header of a packet.
ghost use Rattle.std.specs.Prelude.{◌≡◌, ◌≤◌, length};
ghost use Rattle.packet.specs.Packet.{pid, scrambling, adaptation, field_right, start, long, with_bits};

use cbc::copy;

// A packet of its length.
#[derive(Clone, Copy)]
pub(crate) struct Packet<'a> {
    pub(crate) bytes: &'a [u8],
    ghost whole: { length bytes.now ≡ 188 },
}

impl Packet<'_> {
    pub(crate) fn pid(&self) -> u16
        ensures { result ≡ pid self.now.bytes.now }
    {
        (self.bytes[1] % 32) as u16 * 256 + self.bytes[2] as u16
    }

    pub(crate) fn bits(&self) -> u8
        ensures { result ≡ scrambling self.now.bytes.now }
    {
        self.bytes[3] / 64
    }

    fn code(&self) -> u8
        ensures { result ≡ adaptation self.now.bytes.now }
    {
        self.bytes[3] / 16 % 4
    }

    pub(crate) fn field_right(&self) -> bool
        ensures { result ≡ field_right self.now.bytes.now }
    {
        let code = self.code();
        let length = self.bytes[4];
        (code == 1) | ((code == 2) & (length == 183)) | ((code == 3) & (length <= 182))
    }

    pub(crate) fn start(&self) -> usize
        ensures { result ≡ start self.now.bytes.now }
    {
        if self.code() == 1 {
            return 4;
        }
        5 + self.bytes[4] as usize
    }

    // Whether the payload has a whole block.
    pub(crate) fn is_long(&self) -> bool
        ensures { result ≡ long self.now.bytes.now }
    {
        self.start() <= 172
    }

    // It is copied, with other scrambling bits.
    pub(crate) fn marked(&self, bits: u8, out: &mut [u8])
        requires { (length out.old ≡ 188) × (bits ≤ 3) }
        ensures { out.new ≡ with_bits bits self.now.bytes.now }
    {
        copy(self.bytes, out);
        out[3] = bits * 64 + self.bytes[3] % 64;
    }
}
