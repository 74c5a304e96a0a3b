// One block by either engine.
ghost use Rattle.std.specs.Prelude.{◌≡◌, ◌<◌, ◌≤◌, length};
ghost use Rattle.wrap.specs.Engines.{offset_of, sealed, opened};

// The masked one with the published masks and step 1, at the offset that it names.
#[derive(Clone, Copy)]
pub(crate) enum Engine {
    Plain,
    Masked(u8),
}

impl Engine {
    // The plain engine has no offset, and 0 stands for it.
    pub(crate) fn offset(self) -> u8
        ensures { result ≡ offset_of self }
    {
        match self {
            Engine::Plain => 0,
            Engine::Masked(offset) => offset,
        }
    }
}

// What a call runs once its checks hold: an engine with its schedule, over n values of key data.
#[derive(Drop)]
pub(crate) struct Keyed<'a> {
    pub(crate) engine: Engine,
    pub(crate) schedule: &'a [u8],
    pub(crate) n: usize,
    ghost whole: { length schedule.now ≡ 240 },
    ghost near: { offset_of engine ≤ 15 },
    ghost two: { 1 < n },
    ghost few: { n ≤ 32 },
}

impl Keyed<'_> {
    // Neither engine refuses a block here: what it checks is known, so that unwrap is proved.
    pub(crate) fn sealed(&self, block: [u8; 16]) -> [u8; 16]
        ensures { result ≡ sealed self.now.engine self.now.schedule.now block }
    {
        let mut r = [0u8; 16];
        match self.engine {
            Engine::Plain => aes::encrypt(self.schedule, &block, &mut r),
            Engine::Masked(offset) => masked::encrypt_one(self.schedule, &block, &mut r, offset),
        }
        .unwrap();
        r
    }

    // Each way names two calls of its own: one function of both would be handed all four, and be no plainer.
    pub(crate) fn opened(&self, block: [u8; 16]) -> [u8; 16]
        ensures { result ≡ opened self.now.engine self.now.schedule.now block }
    {
        let mut r = [0u8; 16];
        match self.engine {
            Engine::Plain => aes::decrypt(self.schedule, &block, &mut r),
            Engine::Masked(offset) => masked::decrypt_one(self.schedule, &block, &mut r, offset),
        }
        .unwrap();
        r
    }
}
