// The tags of the sixteen places: 0 is a free place, and 12 p + n + 1 is schedule n of party p.
ghost use Rattle.std.specs.Prelude.{◌≡◌, [], ◌∷◌, ◌<◌, ◌≤◌, MatchOption, IfOk, position, ◌==◌};
ghost use Rattle.aes.specs.Reply.{refusal};
ghost use Rattle.aes.specs.Refusal.{reply};
ghost use Rattle.bank.specs.Places.{tag, held, lowest, loaded_at, is_party};

use aes::reply::Refusal;

// One of the two parties.
#[derive(Clone, Copy)]
pub(crate) struct Party {
    pub(crate) id: u8,
    ghost known: { id ≤ 1 },
}

impl Party {
    pub(crate) fn of(id: u8) -> Result<Party, Refusal>
        ensures told { reply result ≡ refusal (is_party id ∷ []) }
        ensures same { IfOk result (λ p. p.id ≡ id) }
    {
        if 1 < id {
            return Err(Refusal::PartyUnknown);
        }
        Ok(Party { id })
    }

    // The tag of a party's number.
    pub(crate) fn tag(self, number: u8) -> u8
        requires { number ≤ 12 }
        ensures { result ≡ tag self.id number }
    {
        12 * self.id + number + 1
    }

    // How many places a party holds.
    pub(crate) fn held(self, tags: &[u8; 16]) -> usize
        ensures { result ≡ held self.id tags.now }
    {
        let first = self.tag(0);
        let last = self.tag(11);
        tags.iter().filter(|t| first <= **t && **t <= last).count()
    }

    // The lowest number that a party does not use, and 12 where it uses all, as its definition has it: an Option would give a load a
    // case for none, which its check of twelve has ruled out.
    pub(crate) fn lowest(self, tags: &[u8; 16]) -> u8
        ensures { (result ≡ lowest self.id tags.now) × (result ≤ 12) }
    {
        for n in 0..12 {
            if place_of(tags, self.tag(n)).is_none() {
                return n;
            }
        }
        12
    }

    // The place of a party's schedule.
    pub(crate) fn loaded_at(self, tags: &[u8; 16], number: u8) -> Option<usize>
        ensures { MatchOption result (loaded_at self.id number tags.now ≡ 16) (λ k. (k < 16) × (k ≡ loaded_at self.id number tags.now)) }
    {
        if 11 < number {
            return None;
        }
        place_of(tags, self.tag(number))
    }
}

// The first place that has the tag.
pub(crate) fn place_of(tags: &[u8; 16], tag: u8) -> Option<usize>
    ensures { result ≡ position (λ t. t == tag) tags.now }
{
    tags.iter().position(|t| *t == tag)
}
