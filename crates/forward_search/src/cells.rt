//! The cells of an arrival's search.
ghost use Rattle.std.specs.Prelude.{◌≡◌, ◌<◌, Some};
ghost use Rattle.taxi_base.specs.declared.numbers.Arc.{Arc as ArcNumber};
ghost use Rattle.taxi_base.specs.declared.numbers.Node.{Node as NodeNumber};
ghost use Rattle.taxi_base.specs.Airport.{tail};
ghost use Rattle.label_search.specs.Problem.{Problem};
ghost use Rattle.place_cells.specs.Grounds.{ground_of};
ghost use Rattle.place_cells.specs.Tells.{IsOnward, TellsCell};
ghost use Rattle.place_cells.specs.Found.{row_in};
ghost use Rattle.forward_search.specs.Arrivals.{beginning_of, arrival_problem};

use crate::starting::{Start, opening_at};
use label_search::{Cell, CellValue, ForwardCells, Opening, Part, Run};
use place_cells::{ArcRow, Beside, SearchGround};
use taxi_base::{LabelRow, Node};

/// Walks on a ground that begin so and lead to one of some nodes.
#[derive(Drop)]
pub(crate) struct ArrivalCells<'a> {
    pub(crate) ground: SearchGround<'a>,
    pub(crate) start: Start,
    pub(crate) to: &'a [Node],
    ghost nodes: { (a : ArcNumber) (n : NodeNumber) → tail ground.graph.now a ≡ Some n → n.0 < ground.graph.now.nodes },
}

impl<'a> ForwardCells for ArrivalCells<'a> {
    type Place = Beside<'a>;

    type Row = ArcRow<'a>;

    type Told = LabelRow;

    ghost problem = { λ s. arrival_problem (ground_of s.ground) (beginning_of s.start 0) s.to.now };

    ghost stands = { λ s place cell. IsOnward (ground_of s.ground) cell place };

    ghost tells = { λ s row cell. TellsCell (ground_of s.ground) row cell };

    ghost told = { λ s value. row_in (ground_of s.ground) value };

    fn count(&self) -> usize {
        self.ground.count()
    }

    fn begins(&self) -> u32 {
        match self.start {
            Start::Node { earliest, .. } => earliest,
            Start::Frozen { enter, .. } => enter,
        }
    }

    fn cell(&self, cell: usize) -> Cell {
        self.ground.cell(cell)
    }

    #[inline(always)]
    fn start(&self, cell: usize) -> Option<Opening> {
        match self.ground.usable(cell) {
            None => None,
            Some(arc) => opening_at(self.ground.graph, self.start, arc),
        }
    }

    fn place(&self, cell: usize) -> Beside<'a> {
        self.ground.onward(cell)
    }

    fn is_target(&self, _cell: usize, at: Beside<'a>) -> bool {
        self.ground.leads_to(at.place.arc, self.to)
    }

    fn last(&self, _cell: usize, at: Beside<'a>) -> u32 {
        self.ground.last(at.place.window)
    }

    fn first_runs(&self) -> usize {
        match self.start {
            Start::Node { from, .. } => self.ground.leaving(from).len(),
            Start::Frozen { arc, .. } => { if self.ground.graph.exists(arc) { 1 } else { 0 } }
        }
    }

    fn first_run(&self, run: usize) -> Run {
        match self.start {
            Start::Node {
                from,
                earliest,
                latest,
            } => {
                let arc = self.ground.leaving(from)[run];
                self.ground.part(arc, earliest, latest).run
            }
            Start::Frozen { arc, enter, .. } => self.ground.part(arc, enter, enter).run,
        }
    }

    fn runs(&self, _cell: usize, at: Beside<'a>) -> usize {
        at.arcs.len()
    }

    fn numbers(&self) -> usize {
        self.ground.arcs()
    }

    fn number(&self, _cell: usize, at: Beside<'a>, run: usize) -> usize {
        at.arcs[run].0 as usize
    }

    fn run(
        &self,
        _cell: usize,
        at: Beside<'a>,
        run: usize,
        ready: u32,
        last: u32,
    ) -> Part<ArcRow<'a>> {
        let next = at.arcs[run];
        self.ground.part(next, ready, last)
    }

    fn runs_before(&self, _cell: usize, at: Beside<'a>) -> usize {
        self.ground.previous(at.place.arc).len()
    }

    fn run_before(
        &self,
        _cell: usize,
        at: Beside<'a>,
        run: usize,
        second: u32,
    ) -> Part<ArcRow<'a>> {
        let previous = self.ground.previous(at.place.arc)[run];
        self.ground.part(previous, second, second)
    }

    fn cell_in(&self, row: ArcRow<'a>, cell: usize) -> Cell {
        self.ground.cell_in(row, cell)
    }

    fn tell(&self, value: CellValue) -> LabelRow {
        self.ground.row(value)
    }
}
