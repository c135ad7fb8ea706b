ghost use Rattle.std.specs.Prelude.{◌≡◌, ◌<◌};
ghost use Rattle.session_run.specs.Drill.{below};

use std::marker::Model;

/// The factor and the summand of a draw. This project's own.
const FACTOR: u64 = 6_364_136_223_846_793_005;

const STEP: u64 = 1_442_695_040_888_963_407;

/// The number that was drawn last.
#[derive(Drop)]
pub(crate) struct Draws {
    x: u64,
}

impl Model for Draws {
    ghost use Rattle.std.specs.Prelude.{ℕ};

    ghost Value = { ℕ };

    ghost view = { λ d. d.x };
}

impl Draws {
    /// Nothing is drawn yet.
    pub(crate) fn new(seed: u64) -> Draws
        ensures { result ≡ seed }
    {
        Draws { x: seed }
    }

    /// A number below `m`, by one draw.
    pub(crate) fn below(&mut self, m: u64) -> u64
        requires { 0 < m }
        ensures value { result ≡ (below m self.old).0 }
        ensures next { self.new ≡ (below m self.old).1 }
        ensures less { result < m }
    {
        self.x = self.x.wrapping_mul(FACTOR).wrapping_add(STEP);
        (self.x >> 33) % m
    }
}
