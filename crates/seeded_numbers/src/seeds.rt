//! A linear congruential generator.
ghost use Rattle.std.specs.Prelude.{◌≡◌, ◌+◌, ◌*◌, ◌/◌, ◌%◌, ◌^◌, ◌<◌, max};

use std::marker::Model;

/// A source of numbers. Contracts see its state, a number of 64 bits.
#[derive(Drop)]
pub struct Seed {
    state: u64,
}

impl Model for Seed {
    ghost use Rattle.std.specs.Prelude.{ℕ};

    ghost Value = { ℕ };

    ghost view = { λ seed. seed.state };
}

impl Seed {
    /// The source that begins with this number.
    pub fn of(state: u64) -> Seed
        ensures { result ≡ state }
    {
        Seed { state }
    }

    /// The next number, less than `end`, or 0 where `end` is 0: the upper 31 bits of the next state, modulo `end`.
    pub fn below(&mut self, end: u64) -> u64
        ensures state { self.new ≡ (self.old * 6364136223846793005 + 1442695040888963407) % 2 ^ 64 }
        ensures number { result ≡ self.new / 2 ^ 33 % max end 1 }
        ensures below { 0 < end → result < end }
    {
        self.state = self
            .state
            .wrapping_mul(6364136223846793005)
            .wrapping_add(1442695040888963407);
        (self.state >> 33) % end.max(1)
    }
}
