//! One value that several clients change in turn, and whose history only grows.
//!
//! The value stands for a history, which is a list of entries, and has a setting that never changes ([`Logged`]). A
//! [`Turn`] is a lock round it. A client takes the value, and gives it back with the same history or a longer one. At
//! any time, without the turn and without waiting, it may ask how long the history is.
//!
//! **A seat** ([`Seat`]) is what a client calls with. It is a token of no bytes, and may go to another thread. `new`
//! makes the first one, `split` makes a second out of one, and `join` makes one of two.
//!
//! **A view** ([`View`]) is what a seat knows. It exists in contracts alone: no value of the type is ever made.
//!
//! | Part of a view | What it says |
//! |---|---|
//! | `seen` | the history as this seat knows it; the present one begins with it |
//! | `mine` | the positions of the entries that it added, or took in with a seat that joined it, in rising order |
//! | `share` | its part of the 65,536 parts of the right to close; who has them all is the last seat |
//! | `phase` | whether it has the turn |
//! | `setting` | the setting of every value |
//! | `earlier` | what was seen before a join, until the next look at the count shows that `seen` begins with it |
//!
//! So two seats that never told each other anything still know of one history: the rule of the table, which every step
//! keeps (`specs/Rule.antt`), says that it begins with what each has seen, and that each of its positions is in `mine`
//! of exactly one seat. The last seat therefore has every position, and `close` says so.
//!
//! **Two words** and one slot make the lock. The turn word is 1 while some seat has the turn, and the value is in the
//! slot while it is 0; who finds it 1 sleeps on it. The count word has the length of the history. It exists because the
//! value is out of reach while someone has the turn: the history grows, for all seats at one moment, at the step that
//! stores the count, and a load of the count is how a seat without the turn comes to see it.
//!
//! No clause says that a turn is ever got, nor in what order those who wait get it.
#![tactic(auto)]

mod calls;
mod logged;
mod moves;
mod plays;
mod turn;
mod view;

pub use logged::Logged;
pub use turn::{Seat, Turn};
pub use view::{ALL_SHARES, TurnPhase, View};
