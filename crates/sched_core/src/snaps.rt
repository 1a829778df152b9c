//! A state of the scheduler that stays.
ghost use Rattle.std.specs.Prelude.{◌≡◌, length, slice_get};
ghost use Rattle.std.specs.Option.{option_copied};
ghost use Rattle.sched_core.specs.Courses.{state_of};

use crate::scheduler::Core;
use flux_defs::Entry;
use std::marker::Model;

/// The setting and the journal of a scheduler at some time. It stays as it is when the scheduler goes on. Contracts see
/// the same of it as of a `Core`.
#[derive(Drop)]
pub struct Snap {
    pub(crate) core: Core,
}

impl Model for Snap {
    ghost use Rattle.flux_defs.specs.contracts.requests.Need as need;
    ghost use Rattle.std.specs.Coded.{codes};
    ghost use Rattle.sched_core.specs.Courses.{Course};

    ghost Value = { Course };

    ghost coded = { Prim.hlevel (codes, need.the_row.coded) };

    ghost view = { λ snap. snap.core };
}

impl Snap {
    /// How many entries its journal has. It takes no memory.
    pub fn len(&self) -> u64
        ensures { result ≡ length self.now.journal }
    {
        self.core.len()
    }

    /// The present moment, in seconds. It takes no memory.
    pub fn now(&self) -> u64
        ensures { result ≡ (state_of self.now).moment }
    {
        self.core.now()
    }

    /// The entry at a place from 0, and `None` exactly from the journal's end on. It takes no memory.
    pub fn entry(&self, at: u64) -> Option<&Entry>
        ensures { option_copied result ≡ slice_get self.now.journal at }
    {
        self.core.entry(at)
    }

    /// The same snapshot, whose book is given up: it would be made again, should the snapshot be searched once more. It
    /// takes no memory.
    pub(crate) fn without_book(self) -> Snap
        ensures { result ≡ self }
    {
        Snap {
            core: self.core.without_book(),
        }
    }
}
