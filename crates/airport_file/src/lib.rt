//! Airports, and the files that they are read from.
#![tactic(auto)]

mod airport;
mod build;
mod laws;
mod lines;
mod read;
mod records;

pub use airport::Airport;
pub use airport_rules::{AirportFault, LimitKind};
pub use laws::{accepted_airports_keep_the_rules, plain_lines};
pub use read::{AirportRefused, read_airport};
pub use records::{all_records, fields_of, read_row, reader_of};
pub use taxi_base::Kind;
