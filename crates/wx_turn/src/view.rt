//! What a seat knows, as contracts speak of it. No value of these types is made.
use std::collections::LinkedList;

/// One turn: the number of the seat that made it, and its mark, the entry or nothing.
pub struct Element<E> {
    /// The number of the seat that made the turn.
    pub by: u64,
    /// The entry, if the turn made one.
    pub entry: Option<E>,
}

/// The ticket that a seat has, if any.
pub enum Stage {
    /// It has none.
    Rests,
    /// It waits until its ticket is served.
    Waits(u64),
    /// Its ticket is served, and it acts on the value.
    Acts(u64),
    /// Its ticket is the last one: the lock is being closed.
    Closes(u64),
}

/// What a seat knows.
pub struct View<E, F> {
    /// The fixed part of the value. A seat that was joined knows none.
    pub fixed: Option<F>,
    /// The history that the seat has seen.
    pub history: LinkedList<Element<E>>,
    /// What the other seat had seen at a join, until the next look.
    pub other_history: LinkedList<Element<E>>,
    /// The number of the seat. A seat that was joined has none.
    pub number: Option<u64>,
    /// The numbers that were taken over by joins, each with the marks of its elements.
    pub joins: LinkedList<(u64, LinkedList<Option<E>>)>,
    /// The ticket that the seat has.
    pub stage: Stage,
    /// At least so many seats of the lock were numbered.
    pub known_seats: u64,
}
