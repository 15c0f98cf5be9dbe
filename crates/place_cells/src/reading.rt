//! What a search asks of its ground.
ghost use Rattle.std.specs.Prelude.{◌≡◌, ℕ, ◌*◌, ◌/◌, ◌<◌, length, unwrap_or, Some, is_some, nat_lt, ◌&&◌, IsTrue, IfSome};
ghost use Rattle.taxi_base.specs.declared.numbers.Arc.{Arc as ArcNumber};
ghost use Rattle.taxi_base.specs.declared.numbers.Node.{Node as NodeNumber};
ghost use Rattle.taxi_base.specs.Airport.{arc_exists, tail, head, meet, segment_of, seconds_in};
ghost use Rattle.label_search.specs.Problem.{cell_of, IsIn};
ghost use Rattle.walk_labels.specs.Places.{place_at};
ghost use Rattle.walk_labels.specs.Requests.{leads_to_one_of};
ghost use Rattle.place_cells.specs.Turns.{next_arcs, previous_arcs, leaving_arcs, entering_arcs};
ghost use Rattle.place_cells.specs.Laid.{windows_of, window_of_spot};
ghost use Rattle.place_cells.specs.Ground.{last_in, network_in, cells_of, arc_in, can_use_in, usable_in, IsArcPart};
ghost use Rattle.place_cells.specs.Tells.{TellsCell, IsOnward, IsBackward};
ghost use Rattle.place_cells.specs.Grounds.{ground_of, place_of};

use crate::ground::SearchGround;
use crate::spots::{ArcRow, Beside, CellPlace, Spot};
use aircraft_class::time_in;
use label_search::{Cell, Part, Run};
use taxi_base::{Arc, Node, Span, Time};
use window_rows::part_between;

impl<'a> SearchGround<'a> {
    /// How many numbers there are.
    pub fn count(&self) -> usize
        ensures { result ≡ length (cells_of (ground_of self.now)) }
    {
        self.numbers.spots.len()
    }

    /// How many arcs there are.
    pub fn arcs(&self) -> usize
        ensures { result ≡ 2 * length (ground_of self.now).layout.links }
    {
        self.numbers.first.len() - 1
    }

    /// The arc and the window of a number. Of one that is no cell's the window is empty.
    #[inline(always)]
    pub fn place(&self, cell: usize) -> CellPlace
        ensures { place_of result ≡ place_at (cells_of (ground_of self.now)) cell }
    {
        if cell >= self.count() {
            return CellPlace {
                arc: Arc(0),
                window: Span { from: 0, until: 0 },
            };
        }
        self.place_of(cell)
    }

    /// The same of a number that there is.
    #[inline(always)]
    fn place_of(&self, cell: usize) -> CellPlace
        requires { cell < length (cells_of (ground_of self.now)) }
        ensures { place_of result ≡ place_at (cells_of (ground_of self.now)) cell }
    {
        let spot = self.numbers.spots.at(cell);
        CellPlace {
            arc: spot.arc,
            window: self.window(spot),
        }
    }

    /// Whether the class can use the arc, and the window is not empty.
    #[inline(always)]
    fn is_cell(&self, place: CellPlace) -> bool
        ensures { result ≡ can_use_in (ground_of self.now) place.arc && nat_lt place.window.from place.window.until }
    {
        self.can_use(place.arc) && place.window.from < place.window.until
    }

    /// The place of a cell that the class can use. Its window is there, and is read as it lies.
    #[inline(always)]
    pub(crate) fn place_in_use(&self, cell: usize) -> CellPlace
        requires { IsTrue (usable_in (ground_of self.now) cell) }
        ensures { place_of result ≡ place_at (cells_of (ground_of self.now)) cell }
    {
        let spot = self.numbers.spots.at(cell);
        CellPlace {
            arc: spot.arc,
            window: self.store.spans(spot.arc.segment())[spot.window],
        }
    }

    /// A cell's place, with the arcs that may follow.
    #[inline(always)]
    pub fn onward(&self, cell: usize) -> Beside<'a>
        requires { IsTrue (usable_in (ground_of self.now) cell) }
        ensures { IsOnward (ground_of self.now) cell result }
    {
        let place = self.place_in_use(cell);
        let arcs = self.next(place.arc);
        Beside { place, arcs }
    }

    /// A cell's place, with the arcs that may come before.
    #[inline(always)]
    pub fn backward(&self, cell: usize) -> Beside<'a>
        requires { IsTrue (usable_in (ground_of self.now) cell) }
        ensures { IsBackward (ground_of self.now) cell result }
    {
        let place = self.place_in_use(cell);
        let arcs = self.previous(place.arc);
        Beside { place, arcs }
    }

    /// The window of a spot, an empty one where there is none.
    #[inline(always)]
    fn window(&self, spot: Spot) -> Span
        requires { spot.arc.0 / 2 < length self.now.store.now.lists }
        ensures { result ≡ window_of_spot (windows_of self.now.store.now) spot }
    {
        let row = self.store.spans(spot.arc.segment());
        if spot.window < row.len() {
            row[spot.window]
        } else {
            Span { from: 0, until: 0 }
        }
    }

    /// The arc of a number, if it is that of a cell.
    #[inline(always)]
    pub fn usable(&self, cell: usize) -> Option<Arc>
        requires { cell < length (cells_of (ground_of self.now)) }
        ensures some { IfSome result (λ arc. arc ≡ arc_in (ground_of self.now) cell) }
        ensures is { is_some result ≡ usable_in (ground_of self.now) cell }
    {
        let place = self.place_of(cell);
        if self.is_cell(place) {
            Some(place.arc)
        } else {
            None
        }
    }

    /// The window of a cell, the last second at which a step may leave in it, and the seconds that the class takes.
    #[inline(always)]
    pub fn cell(&self, cell: usize) -> Cell
        ensures { result ≡ cell_of (network_in (ground_of self.now)) cell }
    {
        let place = self.place(cell);
        Cell {
            from: place.window.from,
            last: self.last(place.window),
            seconds: self.seconds(place.arc),
        }
    }

    /// The last second at which a step may leave in a window.
    #[inline(always)]
    pub fn last(&self, window: Span) -> Time
        ensures { result ≡ last_in self.now.horizon self.now.clearance window }
    {
        last_second(window.until, self.horizon, self.clearance)
    }

    /// The seconds that the class takes on an arc; none where it may not use it.
    #[inline(always)]
    fn time_on(&self, arc: Arc) -> Option<Time>
        ensures { result ≡ seconds_in self.now.classes.now.table self.now.class (segment_of arc) }
    {
        time_in(self.times, arc.segment())
    }

    /// The same; one second where it may not use it.
    #[inline(always)]
    fn seconds(&self, arc: Arc) -> Time
        ensures { result ≡ unwrap_or (seconds_in self.now.classes.now.table self.now.class (segment_of arc)) 1 }
    {
        self.time_on(arc).unwrap_or(1)
    }

    /// Whether the graph has the arc, and the class may use it.
    #[inline(always)]
    pub fn can_use(&self, arc: Arc) -> bool
        ensures { result ≡ can_use_in (ground_of self.now) arc }
    {
        self.graph.exists(arc) && self.time_on(arc).is_some()
    }

    /// The arcs that may follow an arc.
    #[inline(always)]
    pub fn next(&self, arc: Arc) -> &'a [Arc]
        requires { IsTrue (arc_exists (ground_of self.now).layout arc) }
        ensures { result.now ≡ next_arcs (ground_of self.now).layout arc }
    {
        self.graph.next(arc)
    }

    /// The arcs that may come before an arc.
    #[inline(always)]
    pub fn previous(&self, arc: Arc) -> &'a [Arc]
        requires { IsTrue (arc_exists (ground_of self.now).layout arc) }
        ensures { result.now ≡ previous_arcs (ground_of self.now).layout arc }
    {
        self.graph.previous(arc)
    }

    /// The arcs that leave a node; none where there is no such node.
    pub fn leaving(&self, node: Node) -> &'a [Arc]
        requires { (a : ArcNumber) (n : NodeNumber) → tail (ground_of self.now).layout a ≡ Some n → n.0 < (ground_of self.now).layout.nodes }
        ensures { result.now ≡ leaving_arcs (ground_of self.now).layout node }
    {
        if (node.0 as usize) < self.graph.nodes() {
            self.graph.leaving(node)
        } else {
            &[]
        }
    }

    /// The arcs that enter a node; none where there is no such node.
    pub fn entering(&self, node: Node) -> &'a [Arc]
        requires { (a : ArcNumber) (n : NodeNumber) → head (ground_of self.now).layout a ≡ Some n → n.0 < (ground_of self.now).layout.nodes }
        ensures { result.now ≡ entering_arcs (ground_of self.now).layout node }
    {
        if (node.0 as usize) < self.graph.nodes() {
            self.graph.entering(node)
        } else {
            &[]
        }
    }

    /// Whether an arc leads to one of some nodes.
    #[inline(always)]
    pub fn leads_to(&self, arc: Arc, nodes: &[Node]) -> bool
        requires { IsTrue (arc_exists (ground_of self.now).layout arc) }
        ensures { result ≡ leads_to_one_of (ground_of self.now).layout nodes.now arc }
    {
        let head = self.graph.head(arc);
        nodes.iter().any(|node| head.0 == node.0)
    }

    /// Whether an arc leads away from the node.
    #[inline(always)]
    pub fn leaves(&self, arc: Arc, node: Node) -> bool
        requires { IsTrue (arc_exists (ground_of self.now).layout arc) }
        ensures { result ≡ meet (tail (ground_of self.now).layout arc) (Some node) }
    {
        self.graph.tail(arc).0 == node.0
    }

    /// Those cells of an arc that the class may use which do not end before one second nor begin after another.
    #[inline(always)]
    pub fn part(&self, arc: Arc, low: Time, high: Time) -> Part<ArcRow<'a>>
        requires { IsTrue (arc_exists (ground_of self.now).layout arc) }
        ensures part { IsArcPart (ground_of self.now) arc low high result.run }
        ensures told { (k : ℕ) → IsIn result.run k → TellsCell (ground_of self.now) result.row k }
    {
        match self.time_on(arc) {
            None => no_cells(),
            Some(seconds) => {
                let first = self.numbers.first[arc.0 as usize] as usize;
                let segment = arc.segment();
                let windows = self.store.spans(segment);
                let found = &self.numbers.found[segment.0 as usize];
                let part = part_between(windows, low, high, found);
                Part {
                    run: Run {
                        first: first + part.first,
                        until: first + part.until,
                    },
                    row: ArcRow {
                        windows,
                        first,
                        seconds,
                    },
                }
            }
        }
    }

    /// A cell of an arc, read from the arc's row.
    #[inline(always)]
    pub fn cell_in(&self, row: ArcRow, cell: usize) -> Cell
        requires { TellsCell (ground_of self.now) row cell }
        ensures { result ≡ cell_of (network_in (ground_of self.now)) cell }
    {
        let window = row.windows[cell - row.first];
        Cell {
            from: window.from,
            last: self.last(window),
            seconds: row.seconds,
        }
    }
}

/// No cells of any arc.
fn no_cells<'a>() -> Part<ArcRow<'a>>
    ensures { (k : ℕ) → IsIn result.run k → ⊥ }
{
    Part {
        run: Run { first: 0, until: 0 },
        row: ArcRow {
            windows: &[],
            first: 0,
            seconds: 0,
        },
    }
}

/// The last second at which a step may leave in a window that ends so.
#[inline(always)]
fn last_second(until: Time, horizon: Time, clearance: Time) -> Time
    ensures { (from : ℕ) → result ≡ last_in horizon clearance (record { from = from; until = until }) }
{
    if until == horizon {
        horizon
    } else {
        until.saturating_sub(clearance)
    }
}
