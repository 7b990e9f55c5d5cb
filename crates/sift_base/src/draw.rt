//! Draws: numbers that look like chance, and are the same at each run.

ghost use Rattle.std.specs.Prelude.{◌≡◌, ℕ, ◌<◌, ◌^◌};
ghost use Rattle.sift_base.specs.Draw.{next_number, drawn};

use std::marker::Model;

/// A drawer of numbers: a linear congruential generator with Knuth's constants for 64 bits. A clause sees its number.
#[derive(Clone, Copy)]
pub struct Draw {
    x: u64,
}

impl Model for Draw {
    ghost Value = { ℕ };

    ghost view = { λ drawer. drawer.x };

    ghost invariant = { λ drawer. drawer.x < 2 ^ 64 };

    ghost inverse = { λ number. record { x = number } };
}

impl Draw {
    /// A drawer that begins with this number.
    pub fn of(number: u64) -> Draw
        ensures { result ≡ number }
    {
        Draw { x: number }
    }

    /// Draws a number below `m`.
    pub fn draw(&mut self, m: u64) -> u64
        requires { 0 < m }
        ensures next { self.new ≡ next_number self.old }
        ensures drawn { result ≡ drawn self.new m }
    {
        self.x = self
            .x
            .wrapping_mul(6364136223846793005)
            .wrapping_add(1442695040888963407);
        (self.x >> 33) % m
    }
}
