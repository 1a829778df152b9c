//! One function for each kind of step.
ghost use Rattle.std.specs.Prelude.{◌≡◌, ◌≢◌, [], ◌∷◌, length, Some, None, MatchBool};
ghost use mathlib.Core.List.{IsPrefix};
ghost use Rattle.turn_table.specs.declared.view.TurnPhase.TheVariants.{Holding, Stored};
ghost use Rattle.turn_table.specs.Positions.{RisesBelow};
ghost use Rattle.turn_table.specs.Plays.{stores, rests, IsSeen};
ghost use Rattle.turn_table.specs.Seats.{seen, HasInHand, Took};
ghost use Rattle.turn_table.specs.Turns.{setting_of, Stands};

use crate::logged::Logged;
use crate::plays::{Ask, Give, Load, Store, Take};
use crate::turn::{Seat, Turn};
use std::sync::Wait;

// The turn word, the count word, and the slot with the value.
const TURN: usize = 0;

const COUNT: usize = 1;

pub(crate) const VALUE: usize = 0;

// What the turn word is while nobody has the turn, while somebody has it, and while others may wait for it too.
pub(crate) const FREE: u64 = 0;

pub(crate) const TAKEN: u64 = 1;

pub(crate) const WAITED: u64 = 2;

impl<V: Logged> Turn<V> {
    // Takes the turn, and with it the slot, if it is free. The turn word then is the given one.
    pub(crate) fn try_turn(&self, seat: &mut Seat<V>, word: u64) -> bool
        requires own { Stands V.setting self.now seat.old }
        requires word { word ≢ 0 }
        requires hand { seat.old.me.1 ≡ [] }
        ensures own { seat.new.table_id ≡ seat.old.table_id }
        ensures took { MatchBool result
            (Took V.history V.setting (setting_of V.setting self.now) seat.old.me.0 seat.new.me)
            (seat.new.me ≡ seat.old.me) }
    {
        self.table
            .shared
            .compare_exchange::<Take>(seat, TURN, FREE, word)
            == FREE
    }

    // Lets who has the turn know that somebody waits.
    pub(crate) fn ask_to_wake(&self, seat: &mut Seat<V>)
        requires own { Stands V.setting self.now seat.old }
        ensures own { seat.new.table_id ≡ seat.old.table_id }
        ensures same { seat.new.me ≡ seat.old.me }
    {
        let _found = self
            .table
            .shared
            .compare_exchange::<Ask>(seat, TURN, TAKEN, WAITED);
    }

    // Sleeps while somebody has the turn who knows that others wait. It may also return for no reason.
    pub(crate) fn sleep<R: Wait>(&self, rt: &R) {
        self.table.shared.park(rt, TURN, WAITED as u32);
    }

    // Takes the value out of the slot in hand.
    pub(crate) fn lift(&self, seat: &mut Seat<V>) -> V
        requires own { seat.old.table_id ≡ self.now.table.shared.table_id }
        requires hand { (value : V) × HasInHand seat.old value }
        ensures own { seat.new.table_id ≡ seat.old.table_id }
        ensures value { HasInHand seat.old result }
        ensures left { seat.new.me ≡ (seat.old.me.0, (0, None) ∷ []) }
    {
        let Some(value) = self.table.shared.exchange(seat, VALUE, None) else {
            unreachable!()
        };
        value
    }

    // Lays a value into the empty slot in hand.
    pub(crate) fn lay_back(&self, seat: &mut Seat<V>, value: V)
        requires own { seat.old.table_id ≡ self.now.table.shared.table_id }
        requires hand { seat.old.me.1 ≡ (0, None) ∷ [] }
        ensures own { seat.new.table_id ≡ seat.old.table_id }
        ensures laid { seat.new.me ≡ (seat.old.me.0, (0, Some value) ∷ []) }
    {
        let nothing = self.table.shared.exchange(seat, VALUE, Some(value));
        let None = nothing else { unreachable!() };
    }

    // Makes the history of the value in hand the history of all. The positions that it adds are the seat's.
    pub(crate) fn store_count(&self, seat: &mut Seat<V>, count: u64)
        requires own { Stands V.setting self.now seat.old }
        requires hand { (value : V) × HasInHand seat.old value × IsPrefix (seen seat.old) (V.history value)
            × (length (V.history value) ≡ count) }
        requires turn { seat.old.me.0.phase ≡ Holding }
        ensures own { seat.new.table_id ≡ seat.old.table_id }
        ensures stored { (value : V) → HasInHand seat.old value →
            (seat.new.me ≡ (stores (V.history value) seat.old.me.0, seat.old.me.1))
            × RisesBelow (length (V.history value)) seat.new.me.0.mine }
    {
        self.table.shared.store::<Store>(seat, COUNT, count);
    }

    // Gives the turn up, and with it the slot and the value in it. Wakes one of those who wait, if any does: so a turn
    // that nobody waits for costs no call of the system.
    pub(crate) fn give_turn(&self, seat: &mut Seat<V>)
        requires own { Stands V.setting self.now seat.old }
        requires hand { (value : V) × HasInHand seat.old value × (seen seat.old ≡ V.history value)
            × (V.setting value ≡ setting_of V.setting self.now) }
        requires stored { seat.old.me.0.phase ≡ Stored }
        ensures own { seat.new.table_id ≡ seat.old.table_id }
        ensures gave { seat.new.me ≡ (rests seat.old.me.0, []) }
    {
        let found = self.table.shared.swap::<Give>(seat, TURN, FREE);
        if found == WAITED {
            self.table.shared.wake_one(TURN);
        }
    }

    // Reads how long the history is.
    pub(crate) fn load_count(&self, seat: &mut Seat<V>) -> u64
        requires own { Stands V.setting self.now seat.old }
        ensures own { seat.new.table_id ≡ seat.old.table_id }
        ensures looked { IsSeen result seat.old.me seat.new.me }
    {
        self.table.shared.load::<Load>(seat, COUNT)
    }
}
