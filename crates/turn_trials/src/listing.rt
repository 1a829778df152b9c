//! A desk in memory that lists its calls.
ghost use Rattle.std.specs.Prelude.{◌≡◌, IfOk};
ghost use Rattle.flux_defs.specs.declared.journal.Entry.{Entry as Call};
ghost use Rattle.turn_table.specs.declared.view.TheConstants.{ALL_SHARES};
ghost use Rattle.turn_table.specs.Seats.{seen, mine, share, Rests};
ghost use Rattle.turn_table.specs.Turns.{Belongs};

use flux_defs::{Command, Desk, Entry, Gate, List, Reply};
use std::alloc::{AllocError, Global};
use std::sync::Wait;
use turn_table::{Logged, Seat, Turn};

/// The calls, in the order in which they came, each as an entry.
#[derive(Drop)]
pub(crate) struct Calls {
    pub(crate) entries: List<Entry>,
}

impl Logged for Calls {
    type Entry = Entry;

    type Setting = u8;

    ghost history = { λ calls. calls.entries };

    ghost setting = { λ _. 0 };

    fn count(&self) -> u64 {
        self.entries.len() as u64
    }
}

/// The desk.
#[derive(Drop)]
pub(crate) struct Listing {
    pub(crate) turn: Turn<Calls>,
}

impl Desk for Listing {
    type Seat = Seat<Calls>;

    ghost takes = { λ listing seat. Belongs (λ _. 0) listing.turn seat × Rests seat };

    ghost accepts = { λ _ _. Unit {0} };

    ghost seen = { λ seat. seen seat };

    ghost mine = { λ seat. mine seat };

    ghost share = { λ seat. share seat };

    fn submit<R: Wait, G: Gate>(
        &self,
        rt: &R,
        seat: &mut Seat<Calls>,
        client: u32,
        line: u32,
        command: Command,
        _gate: &G,
    ) -> Result<u64, (Command, AllocError)> {
        let mut calls = self.turn.take(rt, seat);
        let at = calls.count();
        let entry = Entry {
            client,
            line,
            command,
            reply: Reply::Invalid,
        };
        let pushed = calls.entries.push(entry);
        self.turn.give(seat, calls);
        match pushed {
            Ok(()) => Ok(at),
            Err((entry, fault)) => Err((entry.command, fault)),
        }
    }
}

/// An empty list, and its first seat.
pub(crate) fn open(alloc: Global) -> Result<(Listing, Seat<Calls>), AllocError>
    ensures own { IfOk result (λ made. Belongs (λ _. 0) made.0.turn made.1 × Rests made.1) }
    ensures share { IfOk result (λ made. share made.1 ≡ ALL_SHARES) }
{
    let calls = Calls {
        entries: List::new(alloc),
    };
    match Turn::new(alloc, calls) {
        Ok((turn, seat)) => Ok((Listing { turn }, seat)),
        Err((_, fault)) => Err(fault),
    }
}
