//! Numbers drawn one after the other.
ghost use Rattle.std.specs.Prelude.{◌≡◌, ◌<◌};
ghost use Rattle.traffic_generator.specs.Draws.{next_state, drawn};

const MULTIPLIER: u64 = 6364136223846793005;

const INCREMENT: u64 = 1442695040888963407;

/// Numbers drawn by a linear congruence from a first number: the same ones at each run.
#[derive(Drop)]
pub(crate) struct Draws {
    state: u64,
}

impl Draws {
    /// Before the first draw.
    pub(crate) fn new(number: u32) -> Draws
        ensures { result.state ≡ number }
    {
        Draws {
            state: u64::from(number),
        }
    }

    /// The next number, from 0 up to and without `n`.
    pub(crate) fn below(&mut self, n: u32) -> u32
        requires { 0 < n }
        ensures next { self.new.state ≡ next_state self.old.state }
        ensures drawn { result ≡ drawn self.new.state n }
        ensures below { result < n }
    {
        self.state = self.state.wrapping_mul(MULTIPLIER).wrapping_add(INCREMENT);
        ((self.state >> 33) % u64::from(n)) as u32
    }
}
