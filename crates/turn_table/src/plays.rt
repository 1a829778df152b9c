//! What each kind of step tells the seat that makes it, and how a split and a join change views.
ghost use Rattle.turn_table.specs.Plays.{IsTurnTaken, IsCountStored, IsTurnGiven, IsCountSeen, kept_share, given_share};
ghost use Rattle.turn_table.specs.Plays.{IsNothingTold};
ghost use Rattle.turn_table.specs.Plays.{joined};
ghost use Rattle.turn_table.specs.Rule.{spent};

use crate::logged::Logged;
use crate::view::View;
use atomic_table::{Join, Play, Split};

// The turn word becomes another than 0, if it was 0.
pub(crate) struct Take;

impl<V: Logged> Play<Option<V>, View<V::Entry, V::Setting>> for Take {
    ghost then = { IsTurnTaken V.history V.setting };
}

// The turn word becomes 2, if it was 1.
pub(crate) struct Ask;

impl<V: Logged> Play<Option<V>, View<V::Entry, V::Setting>> for Ask {
    ghost then = { IsNothingTold };
}

// The count word becomes the length of the history of the value in hand.
pub(crate) struct Store;

impl<V: Logged> Play<Option<V>, View<V::Entry, V::Setting>> for Store {
    ghost then = { IsCountStored V.history };
}

// The turn word becomes 0.
pub(crate) struct Give;

impl<V: Logged> Play<Option<V>, View<V::Entry, V::Setting>> for Give {
    ghost then = { IsTurnGiven };
}

// The count word is read.
pub(crate) struct Load;

impl<V: Logged> Play<Option<V>, View<V::Entry, V::Setting>> for Load {
    ghost then = { IsCountSeen };
}

// A seat gives one share to a new one.
pub(crate) struct Part;

impl<E, K> Split<View<E, K>> for Part {
    ghost left = { kept_share };

    ghost right = { given_share };
}

// A seat takes another in.
pub(crate) struct Merge;

impl<E, K> Join<View<E, K>> for Merge {
    ghost both = { joined };

    ghost spent = { spent };
}
