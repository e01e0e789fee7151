//! The generator of numbers behind a demo.

ghost use Rattle.std.specs.Prelude.{◌≡◌, ◌<◌};
ghost use Rattle.pm_gen.specs.Draws.{next, draw_below, first_seed};

/// The numbers of the generator: each draw changes the seed, and gives its rest by the number of choices.
#[derive(Clone, Copy)]
pub(crate) struct Draws {
    pub(crate) seed: u32,
}

impl Draws {
    /// The draws that a number starts; numbers count modulo 65536.
    pub(crate) fn of_number(number: u32) -> Draws
        ensures { result.seed ≡ first_seed number }
    {
        Draws {
            seed: number % 65536,
        }
    }

    /// Draws a number below `choices`.
    #[tactic(auto, unfolding(crate::specs::Draws::next))]
    pub(crate) fn draw(&mut self, choices: u32) -> u32
        requires { 0 < choices }
        ensures drawn { result ≡ draw_below choices self.old.seed }
        ensures below { result < choices }
        ensures seed { self.new.seed ≡ next self.old.seed }
    {
        self.seed = ((75 * self.seed as u64 + 74) % 65537) as u32;
        self.seed % choices
    }
}
