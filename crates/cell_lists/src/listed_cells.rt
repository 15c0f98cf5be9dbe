//! A list of cells as a network, forward and backward.
ghost use Rattle.std.specs.Prelude.{◌≡◌, ◌+◌, ◌*◌, ◌^◌, ◌<◌, ◌↔◌, length, IsTrue, All, ⊤};
ghost use Rattle.label_search.specs.Problem.{IsProblem};
ghost use Rattle.label_search.specs.Backward.{IsBackwardProblem};
ghost use Rattle.cell_lists.specs.Listed.{listed_problem, listed_backward, cell_at, run_of, number_of, is_beside, run_if_beside, IsFit};

use label_search::{BackwardCells, Cell, CellValue, Closing, ForwardCells, Opening, Part, Run};

/// A cell, how a walk may begin or end there, whether the search may end there, and two runs of cells beside it: for a
/// search forward those that may follow, for one backward those that may come before.
#[derive(Clone, Copy)]
pub struct ListedCell {
    pub cell: Cell,
    pub opening: Option<Opening>,
    pub closing: Option<Closing>,
    pub is_goal: bool,
    pub near: Run,
    pub far: Run,
}

/// One of the two runs of cells beside a cell.
fn run_beside(cell: &ListedCell, run: usize) -> Run
    ensures { result ≡ run_of cell.now run }
{
    if run == 0 { cell.near } else { cell.far }
}

/// The number of one of the two runs of a cell of so many.
fn number_of(cell: usize, run: usize, count: usize) -> usize
    requires inside { cell < count }
    requires small { 2 * count < 2 ^ 64 }
    ensures { result ≡ number_of cell run }
{
    if run == 0 { 2 * cell } else { 2 * cell + 1 }
}

/// Whether one of the two runs beside a cell has the other.
fn is_beside(cell: &ListedCell, other: usize) -> bool
    ensures { result ≡ is_beside cell.now other }
{
    let near = cell.near.first <= other && other < cell.near.until;
    let far = cell.far.first <= other && other < cell.far.until;
    near || far
}

/// The cell with this number alone, and no cell if the other is not beside it.
fn run_if_beside(cell: &ListedCell, number: usize, other: usize) -> Run
    requires { number + 1 < 2 ^ 64 }
    ensures { result ≡ run_if_beside cell.now number other }
{
    Run {
        first: number,
        until: if is_beside(cell, other) {
            number + 1
        } else {
            number
        },
    }
}

/// The cell with this number; where the list has none, one that no step can leave.
fn cell_at(cells: &[ListedCell], cell: usize) -> ListedCell
    ensures { result ≡ cell_at cells.now cell }
{
    match cells.get(cell) {
        Some(listed) => *listed,
        None => ListedCell {
            cell: Cell {
                from: 0,
                last: 0,
                seconds: 1,
            },
            opening: None,
            closing: None,
            is_goal: false,
            near: Run { first: 0, until: 0 },
            far: Run { first: 0, until: 0 },
        },
    }
}

const TIMES: u32 = 2_147_483_648;

/// Whether the cell is fit for a list of so many.
fn is_fit(cell: &ListedCell, count: usize) -> bool
    ensures { IsTrue result ↔ IsFit count cell.now }
{
    let is_small = cell.cell.from < TIMES && cell.cell.last < TIMES && cell.cell.seconds < TIMES;
    let closes = match cell.closing {
        None => true,
        Some(closing) => closing.earliest_out < TIMES,
    };
    let has_runs = cell.near.until <= count && cell.far.until <= count;
    cell.cell.seconds >= 1 && is_small && closes && has_runs
}

/// Whether the cells can be searched: each takes a second or longer, times are below 2^31, and runs are of cells of the list.
pub fn are_fit(cells: &[ListedCell]) -> bool
    ensures forward { IsTrue result → IsProblem (listed_problem cells.now) }
    ensures backward { IsTrue result → IsBackwardProblem (listed_backward cells.now) }
    ensures exact { IsTrue result ↔ All (IsFit (length cells.now)) cells.now }
{
    for cell in cells {
        if !is_fit(cell, cells.len()) {
            return false;
        }
    }
    true
}

/// Cells whose runs are of those that may follow.
#[derive(Clone, Copy)]
pub struct ForwardList<'a> {
    pub cells: &'a [ListedCell],
}

impl ForwardCells for ForwardList<'_> {
    type Place = ();

    type Row = ();

    type Told = CellValue;

    ghost problem = { λ l. listed_problem l.cells.now };

    ghost stands = { λ l place cell. ⊤ };

    ghost tells = { λ l row cell. ⊤ };

    ghost told = { λ l value. value };

    fn count(&self) -> usize {
        self.cells.len()
    }

    fn begins(&self) -> u32 {
        0
    }

    fn cell(&self, cell: usize) -> Cell {
        self.cells[cell].cell
    }

    fn start(&self, cell: usize) -> Option<Opening> {
        self.cells[cell].opening
    }

    fn place(&self, _cell: usize) {}

    fn is_target(&self, cell: usize, _place: ()) -> bool {
        cell_at(self.cells, cell).is_goal
    }

    fn last(&self, cell: usize, _place: ()) -> u32 {
        cell_at(self.cells, cell).cell.last
    }

    fn first_runs(&self) -> usize {
        1
    }

    fn first_run(&self, _run: usize) -> Run {
        Run {
            first: 0,
            until: self.cells.len(),
        }
    }

    fn runs(&self, _cell: usize, _place: ()) -> usize {
        2
    }

    fn numbers(&self) -> usize {
        2 * self.cells.len()
    }

    fn number(&self, cell: usize, _place: (), run: usize) -> usize {
        number_of(cell, run, self.cells.len())
    }

    fn run(&self, cell: usize, _place: (), run: usize, _ready: u32, _last: u32) -> Part<()> {
        Part {
            run: run_beside(&cell_at(self.cells, cell), run),
            row: (),
        }
    }

    fn runs_before(&self, _cell: usize, _place: ()) -> usize {
        self.cells.len()
    }

    fn run_before(&self, cell: usize, _place: (), run: usize, _second: u32) -> Part<()> {
        Part {
            run: run_if_beside(&cell_at(self.cells, run), run, cell),
            row: (),
        }
    }

    fn cell_in(&self, _row: (), cell: usize) -> Cell {
        cell_at(self.cells, cell).cell
    }

    fn tell(&self, value: CellValue) -> CellValue {
        value
    }
}

/// Cells whose runs are of those that may come before.
#[derive(Clone, Copy)]
pub struct BackwardList<'a> {
    pub cells: &'a [ListedCell],
}

impl BackwardCells for BackwardList<'_> {
    type Place = ();

    type Row = ();

    type Told = CellValue;

    ghost backward = { λ l. listed_backward l.cells.now };

    ghost stands = { λ l place cell. ⊤ };

    ghost tells = { λ l row cell. ⊤ };

    ghost told = { λ l value. value };

    fn count(&self) -> usize {
        self.cells.len()
    }

    fn ends(&self) -> u32 {
        TIMES
    }

    fn cell(&self, cell: usize) -> Cell {
        self.cells[cell].cell
    }

    fn finish(&self, cell: usize) -> Option<Closing> {
        self.cells[cell].closing
    }

    fn place(&self, _cell: usize) {}

    fn is_source(&self, cell: usize, _place: ()) -> bool {
        cell_at(self.cells, cell).is_goal
    }

    fn from(&self, cell: usize, _place: ()) -> u32 {
        cell_at(self.cells, cell).cell.from
    }

    fn last_runs(&self) -> usize {
        1
    }

    fn last_run(&self, _run: usize) -> Run {
        Run {
            first: 0,
            until: self.cells.len(),
        }
    }

    fn runs_before(&self, _cell: usize, _place: ()) -> usize {
        2
    }

    fn numbers(&self) -> usize {
        2 * self.cells.len()
    }

    fn number(&self, cell: usize, _place: (), run: usize) -> usize {
        number_of(cell, run, self.cells.len())
    }

    fn run_before(&self, cell: usize, _place: (), run: usize, _ready: u32, _from: u32) -> Part<()> {
        Part {
            run: run_beside(&cell_at(self.cells, cell), run),
            row: (),
        }
    }

    fn runs_after(&self, _cell: usize, _place: ()) -> usize {
        self.cells.len()
    }

    fn run_after(&self, cell: usize, _place: (), run: usize, _second: u32) -> Part<()> {
        Part {
            run: run_if_beside(&cell_at(self.cells, run), run, cell),
            row: (),
        }
    }

    fn cell_in(&self, _row: (), cell: usize) -> Cell {
        cell_at(self.cells, cell).cell
    }

    fn tell(&self, value: CellValue) -> CellValue {
        value
    }
}
