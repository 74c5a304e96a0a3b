// A state, written to the part that is lent for it.
ghost use Rattle.std.specs.Prelude.{◌≡◌, length};

pub(crate) fn keep(s: [u8; 16], part: &mut [u8])
    requires { length part.old ≡ 16 }
    ensures { part.new ≡ s }
{
    part[..16].copy_from_slice(&s);
}
