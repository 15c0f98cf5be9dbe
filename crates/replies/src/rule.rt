//! The rules by which a block is checked.

/// The rules by which a block is checked, in the order in which they are tried.
#[derive(Clone, Copy, Debug, Drop)]
pub enum Rule {
    /// The block is of the form that the command is due: the refusal, or the reply, or a route of the flight.
    Reply,
    /// The route's steps are such a walk as is sought, and its second is told rightly.
    Walk,
    /// The rows are in order, each of a place of the class.
    Rows,
    /// No start is left out.
    Start,
    /// No label that comes of a row is left out.
    Step,
    /// No row reaches the target, and each is short of the bound.
    Target,
}
