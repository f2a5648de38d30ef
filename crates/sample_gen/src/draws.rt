// Numbers that look as if drawn by lot, and are the same each time.
ghost use Rattle.std.specs.Prelude.{◌≡◌, ◌<◌, ◌%◌};
ghost use Rattle.sample_gen.specs.Draws.{draw, state_after};

use key_codes::mix;

// What each draw adds to the state: 2^64 divided by the golden ratio, as an odd number.
const STEP: u64 = 0x9e37_79b9_7f4a_7c15;

/// Draws of the generator SplitMix64 (Steele, Lea and Flood 2014), numbered from 0. Their state begins as a number.
#[derive(Drop)]
pub(crate) struct Draws {
    pub(crate) state: u64,
}

impl Draws {
    /// The draws after so many first ones. Each adds the same to the state, so the first ones need not be made.
    pub(crate) fn after(number: u32, first: u32) -> Draws
        ensures { result.state ≡ state_after number first }
    {
        let steps = u64::from(first).wrapping_mul(STEP);
        Draws {
            state: u64::from(number).wrapping_add(steps),
        }
    }

    /// The next draw, modulo a bound.
    pub(crate) fn below(&mut self, bound: u32) -> u32
        requires { 0 < bound }
        ensures draw { result ≡ draw self.old.state 0 % bound }
        ensures state { self.new.state ≡ state_after self.old.state 1 }
    {
        (self.draw() % u64::from(bound)) as u32
    }

    /// The next draw.
    fn draw(&mut self) -> u64
        ensures draw { result ≡ draw self.old.state 0 }
        ensures state { self.new.state ≡ state_after self.old.state 1 }
    {
        self.state = self.state.wrapping_add(STEP);
        mix(self.state)
    }
}
