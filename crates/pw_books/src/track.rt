use std::collections::LinkedList;

/// A seat of a table: its view, the steps that it took itself, and in a list for each what the seats
/// took that were joined into it. No value of it is made.
pub struct Track<V, T> {
    pub view: V,
    pub own: LinkedList<T>,
    pub kept: LinkedList<LinkedList<T>>,
}
