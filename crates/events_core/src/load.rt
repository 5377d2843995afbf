//! The generator of a load that can be reproduced from its seed.
ghost use Rattle.std.specs.Prelude.{◌≡◌, ◌<◌};
ghost use Rattle.events_core.specs.Draws.{next_draw, drawn};

use std::marker::Model;

/// The generator's multiplier and increment.
const MULTIPLIER: u64 = 6_364_136_223_846_793_005;

const INCREMENT: u64 = 1_442_695_040_888_963_407;

/// A generator of numbers below 2^31; contracts see it as its state.
#[derive(Drop)]
pub struct Load {
    state: u64,
}

impl Model for Load {
    ghost use Rattle.std.specs.Prelude.{ℕ};

    ghost Value = { ℕ };

    ghost view = { λ load. load.state };
}

impl Load {
    pub fn new(seed: u64) -> Load
        ensures { result ≡ seed }
    {
        Load { state: seed }
    }

    /// Returns the next number.
    pub fn next(&mut self) -> u64
        ensures state { self.new ≡ next_draw self.old }
        ensures number { result ≡ drawn self.new }
        ensures small { result < 2147483648 }
    {
        self.state = self.state.wrapping_mul(MULTIPLIER).wrapping_add(INCREMENT);
        self.state >> 33
    }
}
