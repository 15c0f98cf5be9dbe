//! Cells with their windows cut at a second, so that a search does not look past it.
ghost use Rattle.std.specs.Prelude.{◌≡◌};
ghost use Rattle.label_search.specs.Cut.{cut_cell, cut_problem};

use crate::cells::{Cell, ForwardCells, Opening, Part, Run};
use crate::values::CellValue;

/// The same cells, of whose windows only the seconds up to `until` count.
#[derive(Drop)]
pub(crate) struct CutCells<'a, C: ForwardCells> {
    pub(crate) cells: &'a C,
    pub(crate) until: u32,
}

impl<C: ForwardCells> ForwardCells for CutCells<'_, C> {
    type Place = C::Place;

    type Row = C::Row;

    type Told = C::Told;

    ghost problem = { λ s. cut_problem s.until (C.problem s.cells.now) };

    ghost stands = { λ s place cell. C.stands s.cells.now place cell };

    ghost tells = { λ s row cell. C.tells s.cells.now row cell };

    ghost told = { λ s value. C.told s.cells.now value };

    fn count(&self) -> usize {
        self.cells.count()
    }

    fn begins(&self) -> u32 {
        self.cells.begins()
    }

    fn cell(&self, cell: usize) -> Cell {
        cut(self.cells.cell(cell), self.until)
    }

    #[inline(always)]
    fn start(&self, cell: usize) -> Option<Opening> {
        self.cells.start(cell)
    }

    fn place(&self, cell: usize) -> C::Place {
        self.cells.place(cell)
    }

    fn is_target(&self, cell: usize, place: C::Place) -> bool {
        self.cells.is_target(cell, place)
    }

    fn last(&self, cell: usize, place: C::Place) -> u32 {
        self.cells.last(cell, place).min(self.until)
    }

    fn first_runs(&self) -> usize {
        self.cells.first_runs()
    }

    fn first_run(&self, run: usize) -> Run {
        self.cells.first_run(run)
    }

    fn runs(&self, cell: usize, place: C::Place) -> usize {
        self.cells.runs(cell, place)
    }

    fn numbers(&self) -> usize {
        self.cells.numbers()
    }

    fn number(&self, cell: usize, place: C::Place, run: usize) -> usize {
        self.cells.number(cell, place, run)
    }

    fn run(&self, cell: usize, place: C::Place, run: usize, ready: u32, last: u32) -> Part<C::Row> {
        self.cells.run(cell, place, run, ready, last)
    }

    fn runs_before(&self, cell: usize, place: C::Place) -> usize {
        self.cells.runs_before(cell, place)
    }

    fn run_before(&self, cell: usize, place: C::Place, run: usize, second: u32) -> Part<C::Row> {
        self.cells.run_before(cell, place, run, second)
    }

    fn cell_in(&self, row: C::Row, cell: usize) -> Cell {
        cut(self.cells.cell_in(row, cell), self.until)
    }

    fn tell(&self, value: CellValue) -> C::Told {
        self.cells.tell(value)
    }
}

/// The cell with its window cut.
fn cut(cell: Cell, until: u32) -> Cell
    ensures { result ≡ cut_cell until cell }
{
    Cell {
        from: cell.from,
        last: cell.last.min(until),
        seconds: cell.seconds,
    }
}
