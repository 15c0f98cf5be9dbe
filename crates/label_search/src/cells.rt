//! What a search is asked: cells by their numbers, and which may follow which.
ghost use Rattle.std.specs.Prelude.{◌≡◌, ℕ, ◌<◌, option_map};
ghost use Rattle.label_search.specs.Problem.{Problem, cell_of, start_of, IsIn, IsPartOf, IsPartBefore, IsPartWith, CanBegin, MayComeTo};
ghost use Rattle.label_search.specs.declared.values.CellValue.{CellValue as Valued};
ghost use Rattle.label_search.specs.Backward.{BackwardProblem, finish_of, IsBackwardPartOf, IsPartAfter, CanEnd, MayGoFrom};

use crate::values::CellValue;

/// A cell's window, from its first second to the last at which a step in it may leave, and the seconds that it takes.
#[derive(Clone, Copy)]
pub struct Cell {
    pub from: u32,
    pub last: u32,
    pub seconds: u32,
}

/// How a walk may begin in a cell: when it may enter, and when it may leave at the earliest.
#[derive(Clone, Copy)]
pub struct Opening {
    pub earliest: u32,
    pub latest: u32,
    pub exit_from: u32,
}

/// How a walk may end in a cell: when it may leave.
#[derive(Clone, Copy)]
pub struct Closing {
    pub earliest_out: u32,
    pub latest_out: u32,
}

/// Cells with numbers from `first` until before `until`.
#[derive(Clone, Copy)]
pub struct Run {
    pub first: usize,
    pub until: usize,
}

/// Cells of a run, and the row that tells them.
#[derive(Clone, Copy)]
pub struct Part<R> {
    pub run: Run,
    pub row: R,
}

/// A network of cells, how walks may begin in it, and where they shall end.
pub trait ForwardCells {
    /// What is read once of a cell from which walks go on.
    type Place: Copy + Drop;

    /// What is read once for all cells of a run.
    type Row: Copy + Drop;

    /// What is told of a cell and its value.
    type Told: Copy + Drop;

    ghost problem: { Self → Problem };

    // Whether a place is that of a cell, and whether a row tells a cell.
    ghost stands: { Self → Self.Place → ℕ → Type 0 };

    ghost tells: { Self → Self.Row → ℕ → Type 0 };

    ghost told: { Self → Valued → Self.Told };

    /// How many cells there are.
    fn count(&self) -> usize
        ensures { result ≡ (problem self.now).count };

    /// A second near which walks begin. Nothing but the time that a search takes rests on it.
    fn begins(&self) -> u32;

    fn cell(&self, cell: usize) -> Cell
        requires { cell < (problem self.now).count }
        ensures { result ≡ cell_of (problem self.now).network cell };

    /// How a walk may begin in the cell, if one may.
    fn start(&self, cell: usize) -> Option<Opening>
        requires { cell < (problem self.now).count }
        ensures { option_map start_of result ≡ (problem self.now).starts cell };

    /// What is read of a cell to which walks may come.
    fn place(&self, cell: usize) -> Self::Place
        requires { MayComeTo (problem self.now) cell }
        ensures { stands self.now result cell };

    /// Whether a walk may end in the cell at this place.
    fn is_target(&self, cell: usize, place: Self::Place) -> bool
        requires { stands self.now place cell }
        ensures { result ≡ (problem self.now).target cell };

    /// The last second at which a step may leave the cell at this place.
    fn last(&self, cell: usize, place: Self::Place) -> u32
        requires { stands self.now place cell }
        ensures { result ≡ (problem self.now).network.last cell };

    /// How many runs of cells there are in which walks may begin.
    fn first_runs(&self) -> usize
        ensures { result ≡ (problem self.now).first_runs };

    /// The part of a run in which walks can begin. Cells in which none can may be left out.
    fn first_run(&self, run: usize) -> Run
        requires { run < (problem self.now).first_runs }
        ensures { IsPartWith (CanBegin (problem self.now)) ((problem self.now).first_run run) result };

    /// How many runs of cells may follow the cell at this place.
    fn runs(&self, cell: usize, place: Self::Place) -> usize
        requires { stands self.now place cell }
        ensures { result ≡ (problem self.now).runs cell };

    /// How many numbers of runs there are.
    fn numbers(&self) -> usize
        ensures { result ≡ (problem self.now).numbers };

    /// The number of a run that may follow the cell at this place. Runs with the same number have the same cells.
    fn number(&self, cell: usize, place: Self::Place, run: usize) -> usize
        requires stands { stands self.now place cell }
        requires inside { cell < (problem self.now).count }
        requires is_run { run < (problem self.now).runs cell }
        ensures { result ≡ (problem self.now).number cell run };

    /// The part of a run that a walk can go on to which may leave the cell from `ready` on, and until `last`.
    fn run(
        &self,
        cell: usize,
        place: Self::Place,
        run: usize,
        ready: u32,
        last: u32,
    ) -> Part<Self::Row>
        requires stands { stands self.now place cell }
        requires is_run { run < (problem self.now).runs cell }
        ensures part { IsPartOf (problem self.now) cell ready last ((problem self.now).run ((problem self.now).number cell run)) result.run }
        ensures told { (d : ℕ) → IsIn result.run d → tells self.now result.row d };

    /// How many runs of cells may come before the cell at this place.
    fn runs_before(&self, cell: usize, place: Self::Place) -> usize
        requires { stands self.now place cell }
        ensures { result ≡ (problem self.now).runs_before cell };

    /// The part of a run from which a walk can come that enters the cell at the second.
    fn run_before(
        &self,
        cell: usize,
        place: Self::Place,
        run: usize,
        second: u32,
    ) -> Part<Self::Row>
        requires stands { stands self.now place cell }
        requires is_run { run < (problem self.now).runs_before cell }
        ensures part { IsPartBefore (problem self.now) cell second ((problem self.now).run_before cell run) result.run }
        ensures told { (d : ℕ) → IsIn result.run d → tells self.now result.row d };

    /// A cell that a row tells.
    fn cell_in(&self, row: Self::Row, cell: usize) -> Cell
        requires { tells self.now row cell }
        ensures { result ≡ cell_of (problem self.now).network cell };

    /// What is told of a cell and its value.
    fn tell(&self, value: CellValue) -> Self::Told
        requires { MayComeTo (problem self.now) value.cell }
        ensures { result ≡ told self.now value };
}

/// A network of cells, how walks may end in it, and where they shall begin.
pub trait BackwardCells {
    /// What is read once of a cell to which walks come.
    type Place: Copy + Drop;

    /// What is read once for all cells of a run.
    type Row: Copy + Drop;

    /// What is told of a cell and its value.
    type Told: Copy + Drop;

    ghost backward: { Self → BackwardProblem };

    // Whether a place is that of a cell, and whether a row tells a cell.
    ghost stands: { Self → Self.Place → ℕ → Type 0 };

    ghost tells: { Self → Self.Row → ℕ → Type 0 };

    ghost told: { Self → Valued → Self.Told };

    /// How many cells there are.
    fn count(&self) -> usize
        ensures { result ≡ (backward self.now).count };

    /// A second near which walks end. Nothing but the time that a search takes rests on it.
    fn ends(&self) -> u32;

    fn cell(&self, cell: usize) -> Cell
        requires { cell < (backward self.now).count }
        ensures { result ≡ cell_of (backward self.now).network cell };

    /// How a walk may end in the cell, if one may.
    fn finish(&self, cell: usize) -> Option<Closing>
        requires { cell < (backward self.now).count }
        ensures { option_map finish_of result ≡ (backward self.now).finishes cell };

    /// What is read of a cell from which walks may go on.
    fn place(&self, cell: usize) -> Self::Place
        requires { MayGoFrom (backward self.now) cell }
        ensures { stands self.now result cell };

    /// Whether a walk may begin in the cell at this place.
    fn is_source(&self, cell: usize, place: Self::Place) -> bool
        requires { stands self.now place cell }
        ensures { result ≡ (backward self.now).source cell };

    /// The first second of the window of the cell at this place.
    fn from(&self, cell: usize, place: Self::Place) -> u32
        requires { stands self.now place cell }
        ensures { result ≡ (backward self.now).network.from cell };

    /// How many runs of cells there are in which walks may end.
    fn last_runs(&self) -> usize
        ensures { result ≡ (backward self.now).last_runs };

    /// The part of a run in which walks can end. Cells in which none can may be left out.
    fn last_run(&self, run: usize) -> Run
        requires { run < (backward self.now).last_runs }
        ensures { IsPartWith (CanEnd (backward self.now)) ((backward self.now).last_run run) result };

    /// How many runs of cells may come before the cell at this place.
    fn runs_before(&self, cell: usize, place: Self::Place) -> usize
        requires { stands self.now place cell }
        ensures { result ≡ (backward self.now).runs cell };

    /// How many numbers of runs there are.
    fn numbers(&self) -> usize
        ensures { result ≡ (backward self.now).numbers };

    /// The number of a run that may come before the cell at this place. Runs with the same number have the same cells.
    fn number(&self, cell: usize, place: Self::Place, run: usize) -> usize
        requires stands { stands self.now place cell }
        requires inside { cell < (backward self.now).count }
        requires is_run { run < (backward self.now).runs cell }
        ensures { result ≡ (backward self.now).number cell run };

    /// The part of a run from which a walk can come that may enter the cell from `from` on, and until `ready`.
    fn run_before(
        &self,
        cell: usize,
        place: Self::Place,
        run: usize,
        ready: u32,
        from: u32,
    ) -> Part<Self::Row>
        requires stands { stands self.now place cell }
        requires is_run { run < (backward self.now).runs cell }
        ensures part { IsBackwardPartOf (backward self.now) cell ready from ((backward self.now).run ((backward self.now).number cell run)) result.run }
        ensures told { (d : ℕ) → IsIn result.run d → tells self.now result.row d };

    /// How many runs of cells may follow the cell at this place.
    fn runs_after(&self, cell: usize, place: Self::Place) -> usize
        requires { stands self.now place cell }
        ensures { result ≡ (backward self.now).runs_after cell };

    /// The part of a run to which a walk can go on that leaves the cell at the second.
    fn run_after(&self, cell: usize, place: Self::Place, run: usize, second: u32) -> Part<Self::Row>
        requires stands { stands self.now place cell }
        requires is_run { run < (backward self.now).runs_after cell }
        ensures part { IsPartAfter (backward self.now) cell second ((backward self.now).run_after cell run) result.run }
        ensures told { (d : ℕ) → IsIn result.run d → tells self.now result.row d };

    /// A cell that a row tells.
    fn cell_in(&self, row: Self::Row, cell: usize) -> Cell
        requires { tells self.now row cell }
        ensures { result ≡ cell_of (backward self.now).network cell };

    /// What is told of a cell and its value.
    fn tell(&self, value: CellValue) -> Self::Told
        requires { MayGoFrom (backward self.now) value.cell }
        ensures { result ≡ told self.now value };
}
