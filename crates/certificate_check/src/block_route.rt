//! The route of a block.
ghost use Rattle.std.specs.Prelude.{◌≡◌};

use check_walks::ToldRoute;
use taxi_base::{LabelRow, List, Step, Time};

/// A route that a block tells, with the table of its search. Its steps go to the flight that is put in force on it.
#[derive(Drop)]
pub struct BlockRoute {
    pub second: Time,
    pub steps: List<Step>,
    pub labels: List<LabelRow>,
}

impl BlockRoute {
    /// What it tells, to be checked.
    pub fn as_told(&self) -> ToldRoute<'_>
        ensures second { result.second ≡ self.now.second }
        ensures steps { result.steps.now ≡ self.now.steps }
        ensures labels { result.labels.now ≡ self.now.labels }
    {
        ToldRoute {
            second: self.second,
            steps: self.steps.as_slice(),
            labels: self.labels.as_slice(),
        }
    }
}
