//! What searches use up.
use crate::numbers::CellNumbers;
use label_search::LabelRoom;
use std::alloc::Global;
use taxi_base::Memory;

/// What searches use up, kept from one to the next so that none makes it anew.
#[derive(Drop)]
pub struct SearchRoom {
    pub numbers: CellNumbers,
    pub labels: LabelRoom,
}

impl SearchRoom {
    /// Room for no search yet. It grows with the searches.
    pub fn new(alloc: Global) -> Result<SearchRoom, Memory> {
        Ok(SearchRoom {
            numbers: CellNumbers::new(alloc),
            labels: LabelRoom::new(alloc)?,
        })
    }
}
