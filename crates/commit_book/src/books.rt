//! The book and its seats, as types.
use crate::held::Held;
use turn_table::{Seat, Turn};

/// A client's token at a book: what it has seen of the journal, the positions of its entries, and its share.
pub type BookSeat = Seat<Held>;

/// A core that clients take in turn.
#[derive(Drop)]
pub struct Book {
    pub(crate) turn: Turn<Held>,
}
