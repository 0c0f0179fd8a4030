// Numbers that look random, and are the same in every run.
ghost use Rattle.std.specs.Prelude.{◌≡◌};
ghost use Rattle.trials.specs.Drawn.{next_state, draw_below};

// A linear congruential generator.
#[derive(Clone, Copy)]
pub struct Draws {
    pub state: u32,
}

impl Draws {
    // The next number below a limit; 0 where the limit is 0.
    pub fn below(&mut self, limit: u32) -> u32
        ensures after { self.new.state ≡ next_state self.old.state }
        ensures value { result ≡ draw_below (next_state self.old.state) limit }
    {
        self.state = self
            .state
            .wrapping_mul(1_664_525)
            .wrapping_add(1_013_904_223);
        self.state / 256 % limit.max(1)
    }
}
