//! What becomes of an item of a tree.

/// What stands in the place of an item.
#[derive(Drop)]
pub enum Edit<E> {
    /// Another item.
    Put(E),
    /// Two items.
    Pair(E, E),
    /// Nothing.
    Cut,
}
