//! Places in rings, and their neighbours.
/// A place in a ring: the end of a list, or a member of one. An end stands before the first member and after the last.
#[derive(Clone, Copy)]
pub enum RingPlace<E, X> {
    End(E),
    At(X),
}

/// The neighbours of a place.
#[derive(Clone, Copy)]
pub struct Link<E, X> {
    pub previous: RingPlace<E, X>,
    pub next: RingPlace<E, X>,
}
