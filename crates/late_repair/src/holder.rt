//! A flight or a work party that was in force.
ghost use Rattle.std.specs.Prelude.{◌≡◌};
ghost use Rattle.late_repair.specs.TakenOut.{name_of};

use taxi_base::{Flight, Name, Party};

/// A holder of a ledger, as it was.
#[derive(Drop)]
pub enum Holder {
    Flight(Flight),
    Party(Party),
}

impl Holder {
    /// Its name.
    pub(crate) fn name(&self) -> &Name
        ensures { result.now ≡ name_of self.now }
    {
        match self {
            Holder::Flight(flight) => &flight.name,
            Holder::Party(party) => &party.name,
        }
    }
}
