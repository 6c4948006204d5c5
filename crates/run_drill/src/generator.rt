//! The numbers of a drill.
ghost use Rattle.std.specs.Prelude.{◌≡◌};
ghost use Rattle.run_drill.specs.Drill as specs;

/// A linear congruential generator with the multiplier and the increment of Knuth's MMIX, modulo 2^64.
#[derive(Clone, Copy, PartialEq, Eq, Debug)]
pub struct Generator {
    state: u64,
}

impl Generator {
    /// The generator in this state.
    pub fn new(start: u64) -> Generator
        ensures { result.state ≡ start }
    {
        Generator { state: start }
    }

    /// Draws a number: the high 32 bits of the next state.
    #[tactic(auto, unfolding(crate::specs::Drill::draw, crate::specs::Drill::next_state))]
    pub fn draw(&mut self) -> u32
        ensures number { result ≡ specs.draw self.old.state }
        ensures state { self.new.state ≡ specs.next_state self.old.state }
    {
        self.state = self
            .state
            .wrapping_mul(6_364_136_223_846_793_005)
            .wrapping_add(1_442_695_040_888_963_407);
        (self.state >> 32) as u32
    }
}
