//! Calls by their numbers, of which listed ones fail.
ghost use Rattle.std.specs.Prelude.{◌≡◌, ◌↔◌, Contains, IsTrue};
ghost use Rattle.flux_io.specs.Counts.{next_count};
ghost use Rattle.flux_io.specs.Memory.{next_call};

use flux_defs::List;
use std::marker::Model;

/// How many calls were made, and the numbers, from 1, of those that fail.
#[derive(Debug, Drop)]
pub(crate) struct Calls {
    made: u64,
    fails: List<u64>,
}

impl Model for Calls {
    ghost use Rattle.flux_io.specs.Memory.{Schedule};

    ghost Value = { Schedule };

    ghost view = { λ calls. record { made = calls.made; fails = calls.fails } };
}

impl Calls {
    pub(crate) fn new(fails: List<u64>) -> Calls
        ensures { result ≡ record { made = 0; fails = fails } }
    {
        Calls { made: 0, fails }
    }

    /// Counts one more call, and says whether it is one that fails.
    pub(crate) fn next_fails(&mut self) -> bool
        ensures fails { IsTrue result ↔ Contains self.old.fails (next_count self.old.made) }
        ensures made { self.new ≡ next_call self.old }
    {
        self.made = self.made.saturating_add(1);
        self.fails.items().contains(&self.made)
    }
}
