//! The search backward in time: latest entries, and the route with the latest begin. It is the search forward in a mirror
//! of time, with the same order of cells.
ghost use Rattle.std.specs.Prelude.{◌≡◌, ◌<◌, ◌≤◌, ◌-◌, option_map, map, reverse, IfSome, IfNone, IfOk};
ghost use Rattle.label_core.specs.Mirror.{mirror_start, IsUpTo};
ghost use Rattle.label_search.specs.Problem.{start_of};
ghost use Rattle.label_search.specs.Backward.{IsBackwardProblem, mirror_problem, mirror_cell, mirror_second, mirror_value, mirror_cell_step, finish_of};
ghost use Rattle.label_search.specs.Promised.{IsBestBack, IsPickedBack, HasNoWalkBack, TellEntriesOf};
ghost use Rattle.label_search.specs.Answer.{best_of};

use crate::cells::{BackwardCells, Cell, Closing, ForwardCells, Opening, Part, Run};
use crate::forward::{Found, LabelRoom, Route, earliest_exits};
use crate::pick::CellStep;
use crate::values::CellValue;
use std::alloc::Global;
use taxi_base::Memory;

/// The second in which time is mirrored: the last that is small enough.
const MIRROR: u32 = 2147483647;

/// Cells seen in the mirror: their runs come after, and finishes are starts.
#[derive(Drop)]
struct Mirror<'a, C: BackwardCells> {
    cells: &'a C,
    ghost fits: { IsUpTo mirror_second (C.backward cells.now).network (C.backward cells.now).finishes },
}

impl<C: BackwardCells> ForwardCells for Mirror<'_, C> {
    type Place = C::Place;

    type Row = C::Row;

    type Told = C::Told;

    ghost problem = { λ m. mirror_problem (C.backward m.cells.now) };

    ghost stands = { λ m place cell. C.stands m.cells.now place cell };

    ghost tells = { λ m row cell. C.tells m.cells.now row cell };

    ghost told = { λ m value. C.told m.cells.now (mirror_value value) };

    fn count(&self) -> usize {
        self.cells.count()
    }

    fn begins(&self) -> u32 {
        MIRROR.saturating_sub(self.cells.ends())
    }

    fn cell(&self, cell: usize) -> Cell {
        mirror_cell(self.cells.cell(cell))
    }

    #[inline(always)]
    fn start(&self, cell: usize) -> Option<Opening> {
        match self.cells.finish(cell) {
            None => None,
            Some(finish) => Some(opening_of(finish)),
        }
    }

    fn place(&self, cell: usize) -> C::Place {
        self.cells.place(cell)
    }

    fn is_target(&self, cell: usize, place: C::Place) -> bool {
        self.cells.is_source(cell, place)
    }

    fn last(&self, cell: usize, place: C::Place) -> u32 {
        MIRROR - self.cells.from(cell, place)
    }

    fn first_runs(&self) -> usize {
        self.cells.last_runs()
    }

    fn first_run(&self, run: usize) -> Run {
        self.cells.last_run(run)
    }

    fn runs(&self, cell: usize, place: C::Place) -> usize {
        self.cells.runs_before(cell, place)
    }

    fn numbers(&self) -> usize {
        self.cells.numbers()
    }

    fn number(&self, cell: usize, place: C::Place, run: usize) -> usize {
        self.cells.number(cell, place, run)
    }

    fn run(&self, cell: usize, place: C::Place, run: usize, ready: u32, last: u32) -> Part<C::Row> {
        let until = MIRROR.saturating_sub(ready);
        let from = MIRROR.saturating_sub(last);
        self.cells.run_before(cell, place, run, until, from)
    }

    fn runs_before(&self, cell: usize, place: C::Place) -> usize {
        self.cells.runs_after(cell, place)
    }

    fn run_before(&self, cell: usize, place: C::Place, run: usize, second: u32) -> Part<C::Row> {
        self.cells
            .run_after(cell, place, run, MIRROR.saturating_sub(second))
    }

    fn cell_in(&self, row: C::Row, cell: usize) -> Cell {
        mirror_cell(self.cells.cell_in(row, cell))
    }

    fn tell(&self, value: CellValue) -> C::Told {
        self.cells.tell(mirror_value(value))
    }
}

/// The cell in the mirror.
fn mirror_cell(cell: Cell) -> Cell
    requires { (cell.from ≤ mirror_second) × (cell.last ≤ mirror_second) }
    ensures { result ≡ mirror_cell cell }
{
    Cell {
        from: MIRROR - cell.last,
        last: MIRROR - cell.from,
        seconds: cell.seconds,
    }
}

/// How a walk may begin in the mirror that ends so.
fn opening_of(finish: Closing) -> Opening
    ensures { start_of result ≡ mirror_start mirror_second (finish_of finish) }
{
    Opening {
        earliest: MIRROR.saturating_sub(finish.latest_out),
        latest: MIRROR.saturating_sub(finish.earliest_out),
        exit_from: 0,
    }
}

/// The step in the mirror.
fn mirror_step(step: CellStep) -> CellStep
    ensures { result ≡ mirror_cell_step step }
{
    CellStep {
        cell: step.cell,
        enter: MIRROR.saturating_sub(step.leave),
        leave: MIRROR.saturating_sub(step.enter),
    }
}

/// The value in the mirror.
fn mirror_value(value: CellValue) -> CellValue
    ensures { result ≡ mirror_value value }
{
    CellValue {
        cell: value.cell,
        value: MIRROR.saturating_sub(value.value),
    }
}

/// The steps in the mirror, the last one first.
fn mirror_steps(steps: Vec<CellStep>) -> Vec<CellStep>
    ensures { result.items ≡ map mirror_cell_step (reverse steps.items) }
{
    let mut steps = steps;
    steps.reverse();
    for at in 0..steps.len() {
        steps[at] = mirror_step(steps[at]);
    }
    steps
}

/// The route in the mirror, if there is one.
fn mirror_route(route: Option<Route>) -> Option<Route>
    ensures best { best_of result ≡ option_map (λ n. mirror_second - n) (best_of route) }
    ensures steps { IfSome result (λ r. IfSome route (λ f. r.steps.items ≡ map mirror_cell_step (reverse f.steps.items))) }
{
    let route = route?;
    let best = MIRROR.saturating_sub(route.best);
    let steps = mirror_steps(route.steps);
    Some(Route { steps, best })
}

/// The picked one of the walks that begin latest, if there is a walk, and all latest entries after its begin. Where there
/// is no walk the table has all latest entries.
pub fn latest_entries<C: BackwardCells>(
    alloc: Global,
    room: &mut LabelRoom,
    cells: &C,
) -> Result<Found<C::Told>, Memory>
    requires sound { IsBackwardProblem (C.backward cells.now) }
    ensures table { IfOk result (λ found. TellEntriesOf (C.told cells.now) (C.backward cells.now) (best_of found.route) found.rows) }
    ensures best { IfOk result (λ found. IfSome (best_of found.route) (IsBestBack (C.backward cells.now))) }
    ensures picked { IfOk result (λ found. IfSome found.route (IsPickedBack (C.backward cells.now))) }
    ensures none { IfOk result (λ found. IfNone (best_of found.route) (HasNoWalkBack (C.backward cells.now))) }
{
    let found = earliest_exits(alloc, room, &Mirror { cells })?;
    Ok(Found {
        rows: found.rows,
        route: mirror_route(found.route),
    })
}
