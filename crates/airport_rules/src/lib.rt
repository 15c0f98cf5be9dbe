//! The rules of the records of an airport file.
#![tactic(auto)]

mod faults;
mod judging;
mod laws;
mod members;
mod name_list;
mod plan;
mod record;
mod rows;
mod version;

pub use faults::{AirportFault, LimitKind};
pub use judging::NotTaken;
pub use laws::{sound_plans, well_formed_airports};
pub use name_list::NameList;
pub use plan::Plan;
pub use record::judge;
pub use rows::{ClearanceRow, Taxiway, TimeRow};
pub use version::Version;
