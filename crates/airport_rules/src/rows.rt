//! Rows of an airport file that have no name of their own.
use taxi_base::{Class, Node, Segment};

/// The least time of a class on a segment.
#[derive(Clone, Copy, Debug, PartialEq, Eq)]
pub struct TimeRow {
    pub segment: Segment,
    pub class: Class,
    pub seconds: u32,
}

/// For how long a class keeps a segment shut after leaving it, in seconds.
#[derive(Clone, Copy, Debug, PartialEq, Eq)]
pub struct ClearanceRow {
    pub class: Class,
    pub seconds: u32,
}

/// Where a segment leads from and to, and whether it is taken both ways.
#[derive(Clone, Copy, Debug, PartialEq, Eq)]
pub struct Taxiway {
    pub from: Node,
    pub to: Node,
    pub both: bool,
}
