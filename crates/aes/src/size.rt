// What the length of a schedule tells.
ghost use Rattle.std.specs.Prelude.{◌≡◌, true, false, ◌+◌, ◌*◌, ◌≤◌, ◌<◌, length, IfSome, MatchOption, unwrap_or};
ghost use Rattle.aes.specs.Key.{round_key, rounds_of};
ghost use Rattle.aes.specs.Reply.{scheduled, rounds_for};

use crate::state::block;

// How many rounds a schedule of so many bytes is for, where there is a key with such a schedule.
pub fn rounds_for(size: usize) -> Option<usize>
    ensures rounds { unwrap_or result 0 ≡ rounds_for size }
    ensures some { IfSome result (λ n. (0 < n) × (n < 15)) }
{
    match size {
        176 => Some(10),
        208 => Some(12),
        240 => Some(14),
        _ => None,
    }
}

// A lent schedule, with the rounds that it is for.
#[derive(Clone, Copy)]
pub(crate) struct Schedule<'a> {
    bytes: &'a [u8],
    rounds: usize,
    ghost some: { 0 < rounds },
    ghost few: { rounds < 15 },
    ghost whole: { length bytes.now ≡ 16 * rounds + 16 },
}

impl Schedule<'_> {
    // Where bytes have the length of one.
    pub(crate) fn of(bytes: &[u8]) -> Option<Schedule<'_>>
        ensures { MatchOption result (scheduled (length bytes.now) ≡ false) (λ w. (scheduled (length bytes.now) ≡ true) × (w.bytes.now ≡ bytes.now) × (w.rounds ≡ rounds_of bytes.now)) }
    {
        let rounds = rounds_for(bytes.len())?;
        Some(Schedule { bytes, rounds })
    }

    pub(crate) fn rounds(&self) -> usize
        ensures { result ≡ self.now.rounds }
    {
        self.rounds
    }

    // The key of a round.
    pub(crate) fn key(&self, r: usize) -> [u8; 16]
        requires { r ≤ self.now.rounds }
        ensures { result ≡ round_key self.now.bytes.now r }
    {
        block(&self.bytes[16 * r..16 * r + 16])
    }
}
