//! A core stands for its journal.
use flux_defs::Entry;
use sched_core::Core;
use std::marker::Model;
use turn_table::Logged;

/// A core, as the value of a turn. It has a type of its own here, since trait and core are other crates'.
#[derive(Drop)]
pub struct Held {
    pub core: Core,
}

/// What never changes of a core: contracts see its setting. No value of the type is ever made.
#[derive(Drop)]
pub struct Fixed {
    core: Core,
}

impl Model for Fixed {
    ghost use Rattle.std.specs.Coded.{codes};
    ghost use Rattle.flux_defs.specs.Scheduler.{Setting};

    ghost Value = { Setting };

    ghost coded = { Prim.hlevel codes };

    ghost view = { λ fixed. fixed.core.setting };
}

impl Logged for Held {
    type Entry = Entry;

    type Setting = Fixed;

    ghost history = { λ held. held.core.journal };

    ghost setting = { λ held. held.core.setting };

    fn count(&self) -> u64 {
        self.core.len()
    }
}
