//! The calls of the lock.
ghost use Rattle.std.specs.Prelude.{◌≡◌, ◌+◌, ◌-◌, ◌≤◌, ℕ, [], ◌∷◌, ◌++◌, length, Some, IsOk, IfOk, IfErr};
ghost use Rattle.std.specs.List.{range_with_len};
ghost use mathlib.Core.List.{IsPrefix};
ghost use Rattle.turn_table.specs.declared.view.TheConstants.{ALL_SHARES};
ghost use Rattle.turn_table.specs.Positions.{times};
ghost use Rattle.turn_table.specs.Seats.{seen, mine, share, Rests, HasTurn, IsTurnAsBefore};
ghost use Rattle.turn_table.specs.Turns.{setting_of, Belongs};

use crate::logged::Logged;
use crate::moves::{FREE, TAKEN, VALUE, WAITED};
use crate::plays::{Merge, Part};
use crate::turn::{Seat, Turn};
use atomic_table::{Refused, Table};
use std::alloc::{AllocError, AllocFailed, Global};
use std::snapshot::Snapshot;
use std::sync::Wait;

// A list of one slot, with the value in it.
fn one_slot<V>(alloc: Global, value: V) -> Result<Vec<Option<V>>, V>
    ensures ok { IfOk result (λ slots. slots.items ≡ Some value ∷ []) }
    ensures err { IfErr result (λ back. back ≡ value) }
{
    let mut slots = Vec::new(alloc);
    match slots.push(Some(value)) {
        Ok(()) => Ok(slots),
        Err(AllocFailed { value }) => {
            slots.destroy_empty();
            let Some(value) = value else { unreachable!() };
            Err(value)
        }
    }
}

// The value in a list of one slot.
fn out_of_slot<V>(mut slots: Vec<Option<V>>) -> V
    requires { (value : V) × (slots.items ≡ Some value ∷ []) }
    ensures { slots.items ≡ Some result ∷ [] }
{
    let Some(slot) = slots.pop() else {
        unreachable!()
    };
    slots.destroy_empty();
    let Some(value) = slot else { unreachable!() };
    value
}

impl<V: Logged> Turn<V> {
    /// A lock with this value, and the first seat at it. The seat has seen the value's history, all positions of it are
    /// its own, and it has every share.
    ///
    /// # Errors
    /// No memory is left. The value comes back.
    pub fn new(alloc: Global, value: V) -> Result<(Turn<V>, Seat<V>), (V, AllocError)>
        ensures own { IfOk result (λ made. Belongs V.setting made.0 made.1 × Rests made.1) }
        ensures setting { IfOk result (λ made. setting_of V.setting made.0 ≡ V.setting value) }
        ensures seen { IfOk result (λ made. seen made.1 ≡ V.history value) }
        ensures mine { IfOk result (λ made. mine made.1 ≡ range_with_len 0 (length (V.history value))) }
        ensures share { IfOk result (λ made. share made.1 ≡ ALL_SHARES) }
        ensures err { IfErr result (λ failed. failed.0 ≡ value) }
    {
        let count = value.count();
        let about = Snapshot::of(&value);
        let slots = match one_slot(alloc, value) {
            Ok(slots) => slots,
            Err(value) => return Err((value, AllocError)),
        };
        match Table::new(alloc, &[FREE, count], slots, &about) {
            Ok((table, seat)) => Ok((Turn { table }, seat)),
            Err(Refused { slots }) => Err((out_of_slot(slots), AllocError)),
        }
    }

    /// Takes the turn and the value, once nobody else has it: it may wait. The history of the value begins with what
    /// the seat had seen, and the seat has then seen all of it.
    pub fn take<R: Wait>(&self, rt: &R, seat: &mut Seat<V>) -> V
        requires own { Belongs V.setting self.now seat.old }
        requires rests { Rests seat.old }
        ensures own { Belongs V.setting self.now seat.new × HasTurn seat.new }
        ensures later { IsPrefix (seen seat.old) (V.history result) }
        ensures seen { seen seat.new ≡ V.history result }
        ensures setting { V.setting result ≡ setting_of V.setting self.now }
        ensures same { (mine seat.new ≡ mine seat.old) × (share seat.new ≡ share seat.old) }
    {
        if self.try_turn(seat, TAKEN) {
            return self.lift(seat);
        }
        for _ in rt.forever() {
            if self.try_turn(seat, WAITED) {
                return self.lift(seat);
            }
            self.ask_to_wake(seat);
            self.sleep(rt);
        }
        unreachable!()
    }

    /// Gives the turn up with a value whose history begins with that of the value that was taken. The seat has then
    /// seen it, and the positions that it adds are the seat's. It never waits, and wakes one of those who do, if any
    /// does.
    pub fn give(&self, seat: &mut Seat<V>, value: V)
        requires own { Belongs V.setting self.now seat.old × HasTurn seat.old }
        requires later { IsPrefix (seen seat.old) (V.history value) }
        requires setting { V.setting value ≡ setting_of V.setting self.now }
        ensures own { Belongs V.setting self.now seat.new × Rests seat.new }
        ensures seen { seen seat.new ≡ V.history value }
        ensures mine { mine seat.new ≡ mine seat.old
            ++ range_with_len (length (seen seat.old)) (length (V.history value) - length (seen seat.old)) }
        ensures same { share seat.new ≡ share seat.old }
    {
        let count = value.count();
        self.lay_back(seat, value);
        self.store_count(seat, count);
        self.give_turn(seat);
    }

    /// The length of a history that begins with what the seat had seen. The seat has then seen that history. It takes
    /// no memory and never waits, and the seat may have the turn.
    pub fn version(&self, seat: &mut Seat<V>) -> u64
        requires own { Belongs V.setting self.now seat.old }
        ensures own { Belongs V.setting self.now seat.new }
        ensures turn { IsTurnAsBefore seat.old seat.new }
        ensures later { IsPrefix (seen seat.old) (seen seat.new) }
        ensures count { result ≡ length (seen seat.new) }
        ensures same { (mine seat.new ≡ mine seat.old) × (share seat.new ≡ share seat.old) }
    {
        self.load_count(seat)
    }

    /// Another seat, which has seen as much, has no position and no turn, and has one share of this seat's. It never
    /// waits and takes no memory, so it always succeeds.
    pub fn split(&self, seat: &mut Seat<V>) -> Result<Seat<V>, AllocError>
        requires own { Belongs V.setting self.now seat.old }
        requires room { 2 ≤ share seat.old }
        ensures always { IsOk result }
        ensures own { Belongs V.setting self.now seat.new }
        ensures new { IfOk result (λ new. Belongs V.setting self.now new × Rests new) }
        ensures turn { IsTurnAsBefore seat.old seat.new }
        ensures seen { (seen seat.new ≡ seen seat.old) × IfOk result (λ new. seen new ≡ seen seat.old) }
        ensures mine { (mine seat.new ≡ mine seat.old) × IfOk result (λ new. mine new ≡ []) }
        ensures share { (share seat.new + 1 ≡ share seat.old) × IfOk result (λ new. share new ≡ 1) }
    {
        Ok(self.table.shared.split_seat::<Part>(seat))
    }

    /// Takes another seat in. The seat has then seen a history that begins with what each of the two had seen, and has
    /// the positions and the shares of both. It takes no memory and never waits.
    pub fn join(&self, seat: &mut Seat<V>, other: Seat<V>)
        requires own { Belongs V.setting self.now seat.old × Rests seat.old }
        requires other { Belongs V.setting self.now other × Rests other }
        ensures own { Belongs V.setting self.now seat.new × Rests seat.new }
        ensures seen { IsPrefix (seen seat.old) (seen seat.new) × IsPrefix (seen other) (seen seat.new) }
        ensures mine { (p : ℕ) → times p (mine seat.new) ≡ times p (mine seat.old) + times p (mine other) }
        ensures share { share seat.new ≡ share seat.old + share other }
    {
        self.table.shared.join_seat::<Merge>(seat, other);
        self.load_count(seat);
    }

    /// The value, at the end. The seat is the last one: all positions of the value's history are its own.
    pub fn close(self, seat: Seat<V>) -> V
        requires own { Belongs V.setting self seat × Rests seat }
        requires last { share seat ≡ ALL_SHARES }
        ensures later { IsPrefix (seen seat) (V.history result) }
        ensures mine { mine seat ≡ range_with_len 0 (length (V.history result)) }
        ensures setting { V.setting result ≡ setting_of V.setting self }
    {
        let Turn { table } = self;
        let mut closed = table.close_with(seat);
        let slot = closed.take(VALUE);
        closed.free();
        let Some(value) = slot else { unreachable!() };
        value
    }
}
