//! The lock and its seats, as types.
ghost use Rattle.std.specs.Prelude.{◌≡◌};

use crate::logged::Logged;
use crate::view::View;
use atomic_table::{Table, TableRule};
use std::alloc::Global;
use std::snapshot::Snapshot;

/// The rule of the turn.
pub struct Law;

/// A client's token at a turn. It has no bytes; what it knows is its view.
pub type Seat<V: Logged> = atomic_table::Seat<Option<V>, View<V::Entry, V::Setting>>;

impl<V: Logged> TableRule<Option<V>, View<V::Entry, V::Setting>, Snapshot<V>> for Law {
    ghost use Rattle.turn_table.specs.Rule.{IsKept, first_view};

    ghost holds = { λ key. IsKept V.history V.setting (V.setting key.value) };

    ghost first = { λ key. first_view (V.history key.value) (V.setting key.value) };
}

/// A lock round a value, whose history only grows from one turn to the next.
#[derive(Drop)]
pub struct Turn<V: Logged> {
    // word 0 is the turn, word 1 the count, and slot 0 has the value; the first value is the key
    pub(crate) table: Table<Option<V>, View<V::Entry, V::Setting>, Snapshot<V>, Law, Global>,
    ghost sized: { (table.shared.table_id.words ≡ 2) × (table.shared.table_id.slots ≡ 1) },
}
