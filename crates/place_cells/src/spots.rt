//! What a cell's number stands for.
use taxi_base::{Arc, Span, Time};

/// An arc and the place of a window among those of its segment.
#[derive(Clone, Copy, Debug, PartialEq, Eq)]
pub struct Spot {
    pub arc: Arc,
    pub window: usize,
}

/// An arc in one of the windows of its segment.
#[derive(Clone, Copy, Debug, PartialEq, Eq)]
pub struct CellPlace {
    pub arc: Arc,
    pub window: Span,
}

/// What the cells of an arc are read from: the windows of its segment, the number of the first, and the seconds that the class
/// takes on it.
#[derive(Clone, Copy)]
pub struct ArcRow<'a> {
    pub windows: &'a [Span],
    pub first: usize,
    pub seconds: Time,
}

/// A cell from which a search goes on: its arc and window, and the arcs that may come next.
#[derive(Clone, Copy)]
pub struct Beside<'a> {
    pub place: CellPlace,
    pub arcs: &'a [Arc],
}
