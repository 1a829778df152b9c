//! A scheduler that many clients commit to in turn.
//!
//! A [`Book`] is a core under a turn (`turn_table`): who has the turn has the core, and its journal only grows. Each
//! client has a seat ([`BookSeat`]). It may take a snapshot, search it for as long as it likes while others go on, and
//! commit what it found; or have a command decided under the turn at once. A book is a `Desk`: a submit does all of
//! that for one line.
//!
//! **The book law.** Each answer is the core's, on a journal that begins with all that the seat had seen; the seat has
//! then seen that journal, with the new entry at its end, if there is one; and the positions that a seat has (`mine`)
//! grow by that entry's and no other. The journal is legal and sound whenever the core is at home, by the core's type.
//!
//! No clause says that a snapshot is searched without the turn: read `submitting.rt`.
#![tactic(auto)]

mod books;
mod calls;
mod held;
mod submitting;

pub use books::{Book, BookSeat};
pub use held::{Fixed, Held};
