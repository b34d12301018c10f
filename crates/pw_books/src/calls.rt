use std::collections::LinkedList;

/// A seat number with its entries. No value of it is made.
pub struct Calls<E> {
    pub seat: u32,
    pub entries: LinkedList<E>,
}
