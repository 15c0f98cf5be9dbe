//! One node of a chain, and where a node lies.
use crate::Window;

/// Where a node lies. It owns nothing.
#[derive(Clone, Copy)]
pub(crate) struct Place {
    pub(crate) at: *mut Node,
}

/// A window and its links. `next` of the last node of a chain and `prev` of the first mean nothing.
#[derive(Clone, Copy)]
pub(crate) struct Node {
    pub(crate) next: Place,
    pub(crate) prev: Place,
    pub(crate) window: Window,
}
