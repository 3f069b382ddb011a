//! Numbers that look random.
ghost use Rattle.std.specs.Prelude.{◌<◌};

/// Numbers that look random, by Marsaglia's xorshift.
#[derive(Drop)]
pub(crate) struct Random {
    state: u64,
}

impl Random {
    /// The same numbers each time.
    pub(crate) fn new() -> Self {
        Random {
            state: 88_172_645_463_325_252,
        }
    }

    fn next(&mut self) -> u64 {
        self.state ^= self.state << 13;
        self.state ^= self.state >> 7;
        self.state ^= self.state << 17;
        self.state
    }

    /// A small number below another.
    pub(crate) fn below(&mut self, bound: u8) -> u8
        requires { 0 < bound }
        ensures { result < bound }
    {
        (self.next() % u64::from(bound)) as u8
    }

    /// A number below another.
    pub(crate) fn place(&mut self, bound: usize) -> usize
        requires { 0 < bound }
        ensures { result < bound }
    {
        (self.next() % bound as u64) as usize
    }
}
