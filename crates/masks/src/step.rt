// By how much the labels advance from round to round: 1, or 4 to 15.
ghost use Rattle.std.specs.Prelude.{◌≡◌};
ghost use Rattle.aes.specs.Reply.{taken};

pub fn taken(step: u8) -> bool
    ensures { result ≡ taken step }
{
    matches!(step, 1 | 4..=15)
}
