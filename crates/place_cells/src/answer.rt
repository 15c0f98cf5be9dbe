//! What was found over cells, told of arcs and windows.
ghost use Rattle.std.specs.Prelude.{◌≡◌, map, IfOk, IsTrue};
ghost use Rattle.label_search.specs.Answer.{step_of};
ghost use Rattle.walk_labels.specs.Places.{place_at};
ghost use Rattle.walk_labels.specs.Requests.{steps_at};
ghost use Rattle.place_cells.specs.Ground.{cells_of, usable_in};
ghost use Rattle.place_cells.specs.Grounds.{ground_of};
ghost use Rattle.place_cells.specs.Found.{row_in};

use crate::ground::SearchGround;
use label_search::{CellStep, CellValue};
use std::alloc::Global;
use taxi_base::{LabelRow, List, Memory, Step};

/// The steps by their arcs.
pub fn steps_of(
    alloc: Global,
    ground: &SearchGround,
    walk: &[CellStep],
) -> Result<List<Step>, Memory>
    ensures { IfOk result (λ steps. steps ≡ steps_at (place_at (cells_of (ground_of ground.now))) (map step_of walk.now)) }
{
    let mut steps = List::with_capacity(alloc, walk.len())?;
    for step in walk {
        steps.push(Step {
            arc: ground.place(step.cell).arc,
            enter: step.enter,
            leave: step.leave,
        })?;
    }
    Ok(steps)
}

impl<'a> SearchGround<'a> {
    /// A cell's value by its arc and window, where the class can use the cell.
    #[inline(always)]
    pub fn row(&self, value: CellValue) -> LabelRow
        requires { IsTrue (usable_in (ground_of self.now) value.cell) }
        ensures { result ≡ row_in (ground_of self.now) value }
    {
        let place = self.place_in_use(value.cell);
        LabelRow {
            arc: place.arc,
            from: place.window.from,
            until: place.window.until,
            value: value.value,
        }
    }
}
