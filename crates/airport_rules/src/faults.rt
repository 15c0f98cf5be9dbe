//! What can be wrong with a record of an airport file.
ghost use Rattle.std.specs.Prelude.{◌≡◌};
ghost use Rattle.airport_rules.specs.Faults.{fault_word};

use thiserror::Error;

/// A limit that a record would pass.
#[derive(Clone, Copy, Debug, PartialEq, Eq)]
pub enum LimitKind {
    Nodes,
    Classes,
    Segments,
    /// The ends of segments at one node.
    Ends,
    /// The forbidden turns.
    Forbids,
    /// The conflict sets.
    Sets,
}

/// A rule that a record breaks. Of several rules the first in this order is told.
#[derive(Clone, Copy, Debug, PartialEq, Eq, Error)]
pub enum AirportFault {
    #[error("the first record is not that of an airport")]
    FirstRow,
    #[error("the first field is no known word")]
    UnknownRow,
    #[error("another number of fields")]
    FieldCount,
    #[error("a name or an arc is not written as one")]
    BadName,
    #[error("the name was given before")]
    NameTwice,
    #[error("a name was not given before")]
    UnknownName,
    #[error("a kind or a direction is no known word")]
    BadWord,
    #[error("a number is not written as one, or is out of range")]
    BadNumber,
    #[error("no turn leads from the first arc to the second")]
    NoSuchArc,
    #[error("the row was given before")]
    RowTwice,
    #[error("over the limit: {which:?}")]
    Limit { which: LimitKind },
    #[error("there is no horizon")]
    NoHorizon,
}

impl AirportFault {
    /// The fault as it is printed.
    pub fn word(self) -> &'static [u8]
        ensures { result.now ≡ fault_word self }
    {
        match self {
            AirportFault::FirstRow => b"first-row",
            AirportFault::UnknownRow => b"unknown-row",
            AirportFault::FieldCount => b"field-count",
            AirportFault::BadName => b"bad-name",
            AirportFault::NameTwice => b"name-twice",
            AirportFault::UnknownName => b"unknown-name",
            AirportFault::BadWord => b"bad-word",
            AirportFault::BadNumber => b"bad-number",
            AirportFault::NoSuchArc => b"no-such-arc",
            AirportFault::RowTwice => b"row-twice",
            AirportFault::Limit { which } => which.words(),
            AirportFault::NoHorizon => b"no-horizon",
        }
    }
}

ghost use Rattle.airport_rules.specs.Faults.{limit_words};

impl LimitKind {
    fn words(self) -> &'static [u8]
        ensures { result.now ≡ limit_words self }
    {
        match self {
            LimitKind::Nodes => b"limit nodes",
            LimitKind::Classes => b"limit classes",
            LimitKind::Segments => b"limit segments",
            LimitKind::Ends => b"limit ends",
            LimitKind::Forbids => b"limit forbids",
            LimitKind::Sets => b"limit sets",
        }
    }
}
