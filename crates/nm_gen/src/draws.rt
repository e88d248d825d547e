// Numbers that look drawn, the same for the same seed.
ghost use Rattle.nm_gen.specs.Draws.{drawn, next_state};
ghost use Rattle.std.specs.Prelude.{◌≡◌, ◌<◌};

const MULTIPLIER: u64 = 6_364_136_223_846_793_005;

const INCREMENT: u64 = 1_442_695_040_888_963_407;

/// A linear congruential generator modulo 2^64.
#[derive(Drop)]
pub struct Draws {
    state: u64,
}

impl Draws {
    /// The draws from a seed.
    pub fn new(seed: u32) -> Draws
        ensures { result.state ≡ seed }
    {
        Draws {
            state: u64::from(seed),
        }
    }

    /// The next draw, of the numbers below `bound`. The low bits repeat soon, so the high ones tell.
    pub fn draw(&mut self, bound: u64) -> u64
        requires { 0 < bound }
        ensures state { self.new.state ≡ next_state self.old.state }
        ensures number { result ≡ drawn bound self.new.state }
        ensures below { result < bound }
    {
        self.state = self.state.wrapping_mul(MULTIPLIER).wrapping_add(INCREMENT);
        (self.state >> 33) % bound
    }
}
