//! Numbers drawn one after the other, each made of the one before.
ghost use Rattle.std.specs.Prelude.{ℕ, ◌≡◌, ◌<◌, ◌%◌, ◌^◌};
ghost use Rattle.iot_gen.specs.Turns.{next, drawn};

use std::marker::Model;

/// What is drawn from. Contracts see it as the number that the last draw left.
#[derive(Drop)]
pub(crate) struct Draws {
    state: u64,
}

impl Model for Draws {
    ghost use Rattle.std.specs.Prelude.{ℕ};

    ghost Value = { ℕ };

    ghost view = { λ draws. draws.state };
}

impl Draws {
    /// Starts from this number.
    pub(crate) fn new(start: u64) -> Draws
        ensures { result ≡ start }
    {
        Draws { state: start }
    }

    /// Draws a number below this one.
    #[tactic(auto, unfolding(crate::specs::Turns::next, crate::specs::Turns::drawn))]
    pub(crate) fn draw(&mut self, below: u64) -> u64
        requires { 0 < below }
        ensures value { result ≡ drawn (next self.old) below }
        ensures below { result < below }
        ensures after { self.new ≡ next self.old }
    {
        self.state = self
            .state
            .wrapping_mul(6364136223846793005)
            .wrapping_add(1442695040888963407);
        (self.state >> 33) % below
    }
}
