//! Numbers by which texts and terms are made.
ghost use Rattle.std.specs.Prelude.{◌<◌};

/// Numbers by a linear congruence, the same in each run.
#[derive(Drop)]
pub struct Numbers {
    state: u64,
}

impl Numbers {
    pub fn from(seed: u64) -> Numbers {
        Numbers { state: seed }
    }

    /// The next number, below a bound that is not 0.
    pub fn below(&mut self, bound: usize) -> usize
        requires { 0 < bound }
        ensures { result < bound }
    {
        self.state = self
            .state
            .wrapping_mul(6_364_136_223_846_793_005)
            .wrapping_add(1_442_695_040_888_963_407);
        (self.state >> 33) as usize % bound
    }
}
