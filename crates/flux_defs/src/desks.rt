//! Where clients hand in their lines, from any thread.
ghost use Rattle.std.specs.Prelude.{◌≡◌, ℕ, ◌∷◌, ◌++◌, [], List, IfOk, IfErr};
ghost use mathlib.Core.List.{IsPrefix};
ghost use Rattle.flux_defs.specs.declared.journal.Command.{Command};
ghost use Rattle.flux_defs.specs.declared.journal.Entry.{Entry};
ghost use Rattle.flux_defs.specs.Placed.{IsPlaced};

use crate::gates::Gate;
use crate::journal::Command;
use std::alloc::AllocError;
use std::sync::Wait;

/// A desk places each command that it takes as one entry of one history. Whoever hands in commands has a seat.
pub trait Desk {
    type Seat;

    /// The seat is one of those that the desk takes.
    ghost takes: { Self → Self.Seat → Type 0 };

    /// The command is one of those that the desk takes.
    ghost accepts: { Self → Command → Type 0 };

    /// The history that the seat has seen: the present one begins with it.
    ghost seen: { Self.Seat → List Entry };

    /// The positions of the entries that the seat placed, in rising order.
    ghost mine: { Self.Seat → List ℕ };

    /// The seat's part of the right to close the desk.
    ghost share: { Self.Seat → ℕ };

    /// Places one entry with this client, line and command, behind all that the seat had seen, and answers its
    /// position.
    /// The gate is told how far it has come. On want of memory, which is the only error, no entry was placed and the
    /// command comes back. It may wait.
    fn submit<R: Wait, G: Gate>(
        &self,
        rt: &R,
        seat: &mut Self::Seat,
        client: u32,
        line: u32,
        command: Command,
        gate: &G,
    ) -> Result<u64, (Command, AllocError)>
        requires seat { takes self.now seat.old }
        requires command { accepts self.now command }
        ensures seat { takes self.now seat.new }
        ensures share { share seat.new ≡ share seat.old }
        ensures later { IsPrefix (seen seat.old) (seen seat.new) }
        ensures placed { IfOk result (λ at. IsPlaced client line command at (seen seat.old) (seen seat.new)) }
        ensures mine { IfOk result (λ at. mine seat.new ≡ mine seat.old ++ at ∷ []) }
        ensures err { IfErr result (λ e. (e.0 ≡ command) × (mine seat.new ≡ mine seat.old)) };
}
