// The third counter of a masked run, beside positions and labels: a type too, so that none of the three is given for another.
ghost use Rattle.std.specs.Prelude.{◌≡◌, ◌+◌, ◌-◌, ◌<◌};

#[derive(Clone, Copy)]
pub(crate) struct Round(usize);

impl Round {
    pub(crate) const FIRST: Round = Round(0);

    // The number of a run's rounds, with which a decryption begins; after the last, one key more is added and one mask more is left.
    pub(crate) fn last(n: usize) -> Round
        ensures { result ≡ record { 0 = n } }
    {
        Round(n)
    }

    // The round that follows.
    pub(crate) fn next(self) -> Round
        requires { self.0 < 14 }
        ensures { result ≡ record { 0 = self.0 + 1 } }
    {
        Round(self.0 + 1)
    }

    // The round before it, in a decryption.
    pub(crate) fn previous(self) -> Round
        requires { 0 < self.0 }
        ensures { result ≡ record { 0 = self.0 - 1 } }
    {
        Round(self.0 - 1)
    }

    // Which sixteen bytes of a schedule are the round's key.
    pub(crate) fn read(self) -> usize
        ensures { result ≡ self.0 }
    {
        self.0
    }
}
