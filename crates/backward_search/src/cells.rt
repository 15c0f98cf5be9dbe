//! The cells of a departure's search.
ghost use Rattle.std.specs.Prelude.{◌≡◌, ◌<◌, Some, option_map, IfOk, IsTrue};
ghost use Rattle.taxi_base.specs.declared.numbers.Arc.{Arc as ArcNumber};
ghost use Rattle.taxi_base.specs.declared.numbers.Node.{Node as NodeNumber};
ghost use Rattle.taxi_base.specs.Airport.{arc_exists, head};
ghost use Rattle.label_search.specs.Backward.{BackwardProblem, finish_of};
ghost use Rattle.place_cells.specs.Grounds.{ground_of};
ghost use Rattle.place_cells.specs.Tells.{IsBackward, TellsCell};
ghost use Rattle.place_cells.specs.Found.{row_in};
ghost use Rattle.backward_search.specs.Departures.{finish_at, last_arcs, departure_problem};

use label_search::{BackwardCells, Cell, CellValue, Closing, Part, Run};
use place_cells::{ArcRow, Beside, SearchGround};
use std::alloc::Global;
use taxi_base::{Arc, LabelRow, Memory, Node, Time};

/// Walks on a ground that leave a node, and end at one of some others within a time. The last arcs are those by which they may end.
#[derive(Drop)]
pub(crate) struct DepartureCells<'a> {
    pub(crate) ground: SearchGround<'a>,
    pub(crate) from: Node,
    pub(crate) to: &'a [Node],
    pub(crate) last: &'a [Arc],
    pub(crate) earliest_out: Time,
    pub(crate) latest_out: Time,
    ghost lasts: { last.now ≡ last_arcs ground.graph.now to.now },
}

/// The arcs by which walks may end at one of some nodes.
pub(crate) fn last_arcs(
    alloc: Global,
    ground: &SearchGround,
    to: &[Node],
) -> Result<Vec<Arc>, Memory>
    requires { (a : ArcNumber) (n : NodeNumber) → head ground.now.graph.now a ≡ Some n → n.0 < ground.now.graph.now.nodes }
    ensures { IfOk result (λ arcs. arcs.items ≡ last_arcs ground.now.graph.now to.now) }
{
    let mut arcs = Vec::new(alloc);
    for node in to {
        arcs.extend_from_slice(ground.entering(*node))?;
    }
    Ok(arcs)
}

impl DepartureCells<'_> {
    /// How a walk may end by the arc, if one may.
    fn closing_at(&self, arc: Arc) -> Option<Closing>
        requires { IsTrue (arc_exists self.now.ground.graph.now arc) }
        ensures { option_map finish_of result ≡ finish_at self.now.ground.graph.now (record { to = self.now.to.now; earliest = self.now.earliest_out; latest = self.now.latest_out }) arc }
    {
        if self.ground.leads_to(arc, self.to) {
            Some(Closing {
                earliest_out: self.earliest_out,
                latest_out: self.latest_out,
            })
        } else {
            None
        }
    }
}

impl<'a> BackwardCells for DepartureCells<'a> {
    type Place = Beside<'a>;

    type Row = ArcRow<'a>;

    type Told = LabelRow;

    ghost backward = { λ s. departure_problem (ground_of s.ground) s.from (record { to = s.to.now; earliest = s.earliest_out; latest = s.latest_out }) };

    ghost stands = { λ s place cell. IsBackward (ground_of s.ground) cell place };

    ghost tells = { λ s row cell. TellsCell (ground_of s.ground) row cell };

    ghost told = { λ s value. row_in (ground_of s.ground) value };

    fn count(&self) -> usize {
        self.ground.count()
    }

    fn ends(&self) -> u32 {
        self.latest_out
    }

    fn cell(&self, cell: usize) -> Cell {
        self.ground.cell(cell)
    }

    #[inline(always)]
    fn finish(&self, cell: usize) -> Option<Closing> {
        match self.ground.usable(cell) {
            None => None,
            Some(arc) => self.closing_at(arc),
        }
    }

    fn place(&self, cell: usize) -> Beside<'a> {
        self.ground.backward(cell)
    }

    fn is_source(&self, _cell: usize, at: Beside<'a>) -> bool {
        self.ground.leaves(at.place.arc, self.from)
    }

    fn from(&self, _cell: usize, at: Beside<'a>) -> u32 {
        at.place.window.from
    }

    fn last_runs(&self) -> usize {
        self.last.len()
    }

    fn last_run(&self, run: usize) -> Run {
        let arc = self.last[run];
        self.ground
            .part(arc, self.earliest_out, self.latest_out)
            .run
    }

    fn runs_before(&self, _cell: usize, at: Beside<'a>) -> usize {
        at.arcs.len()
    }

    fn numbers(&self) -> usize {
        self.ground.arcs()
    }

    fn number(&self, _cell: usize, at: Beside<'a>, run: usize) -> usize {
        at.arcs[run].0 as usize
    }

    fn run_before(
        &self,
        _cell: usize,
        at: Beside<'a>,
        run: usize,
        ready: u32,
        from: u32,
    ) -> Part<ArcRow<'a>> {
        let previous = at.arcs[run];
        self.ground.part(previous, from, ready)
    }

    fn runs_after(&self, _cell: usize, at: Beside<'a>) -> usize {
        self.ground.next(at.place.arc).len()
    }

    fn run_after(&self, _cell: usize, at: Beside<'a>, run: usize, second: u32) -> Part<ArcRow<'a>> {
        let next = self.ground.next(at.place.arc)[run];
        self.ground.part(next, second, second)
    }

    fn cell_in(&self, row: ArcRow<'a>, cell: usize) -> Cell {
        self.ground.cell_in(row, cell)
    }

    fn tell(&self, value: CellValue) -> LabelRow {
        self.ground.row(value)
    }
}
