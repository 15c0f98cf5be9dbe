//! What a flight of a batch asks for.
use taxi_base::{Class, Name, Request};

/// A new flight that is to be routed, in the airport's own terms.
#[derive(Clone, Copy, Debug, PartialEq, Eq)]
pub struct Wish {
    pub name: Name,
    pub class: Class,
    pub request: Request,
}
