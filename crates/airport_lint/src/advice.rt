//! What may be told of an airport.
use taxi_base::{Arc, Class, Node, Segment};

/// Something odd about an airport. Sets of conflicting segments go by their places in the file.
#[derive(Clone, Copy, Debug)]
pub enum Advice {
    ClassNoSeconds(Class),
    ClassNoArrival(Class),
    ClassNoDeparture(Class),
    SegmentNoSeconds(Segment),
    NodeNoArrival(Node),
    NodeNoDeparture(Node),
    NodeUnused(Node),
    DeadEnd(Arc),
    IdleTurn(Arc, Arc),
    SameSet { set: u32, first: u32 },
    NeedlessSet(u32),
}
