//! Numbers that look random.
ghost use Rattle.std.specs.Prelude.{◌<◌};

/// Numbers that look random, by Marsaglia's xorshift.
#[derive(Drop)]
pub(crate) struct Random {
    pub(crate) state: u64,
}

impl Random {
    fn next(&mut self) -> u64 {
        self.state ^= self.state << 13;
        self.state ^= self.state >> 7;
        self.state ^= self.state << 17;
        self.state
    }

    pub(crate) fn below(&mut self, bound: u8) -> u8
        requires { 0 < bound }
        ensures { result < bound }
    {
        (self.next() % u64::from(bound)) as u8
    }
}
