//! Picking the route back from its goal.
ghost use Rattle.std.specs.Prelude.{◌≡◌, ◌<◌, ◌≤◌, ◌↔◌, ℕ, ⊤, max, map, length, IsTrue, IsSome, IsSomeAnd, Some, IfSome, IfNone, IfOk};
ghost use Rattle.label_core.specs.Walks.{IsEarliestExit};
ghost use Rattle.label_core.specs.Labels.{entry, IsStartEntry};
ghost use Rattle.label_core.specs.Picked.{IsPicked};
ghost use Rattle.label_search.specs.Problem.{IsProblem, IsIn, MayComeTo};
ghost use Rattle.label_search.specs.Expanding.{HasRoom};
ghost use Rattle.label_search.specs.Entering.{IsEntering, LeadsTo, IsFirstOf, AreInWindows};
ghost use Rattle.label_search.specs.Labels.{standing, label_of};
ghost use Rattle.label_search.specs.Standing.{IsAtEnd};
ghost use Rattle.label_search.specs.Answer.{step_of, ComesBefore};

use crate::cells::{ForwardCells, Part};
use crate::known::Known;
use crate::labels::{Label, Labels};
use crate::settle::{Goal, start_entry};
use std::alloc::Global;
use taxi_base::Memory;

/// A step of a walk: its cell, and when it enters and leaves it.
#[derive(Clone, Copy, Debug, PartialEq, Eq)]
pub struct CellStep {
    pub cell: usize,
    pub enter: u32,
    pub leave: u32,
}

/// Room for so many steps is made at once. Most routes have fewer.
const USUAL_STEPS: usize = 64;

/// When a walk enters the cell, if the value is a start entry of it.
fn start_enter<C: ForwardCells>(cells: &C, cell: usize, value: u32) -> Option<u32>
    requires sound { IsProblem (C.problem cells.now) }
    requires inside { cell < (C.problem cells.now).count }
    ensures some { IfSome result (λ enter. (e : IsStartEntry (C.problem cells.now).network (C.problem cells.now).starts cell value)
        × (enter ≡ entry (C.problem cells.now).network cell e.start.earliest)) }
    ensures none { IfNone result (IsStartEntry (C.problem cells.now).network (C.problem cells.now).starts cell value → ⊥) }
{
    let leave = start_entry(cells, cell)?;
    if leave != value {
        return None;
    }
    let start = cells.start(cell)?;
    Some(start.earliest.max(cells.cell(cell).from))
}

/// The label of a cell that has one.
fn label_at(labels: &Labels, cell: usize) -> Label
    requires inside { cell < length labels.now.known.items }
    requires labelled { IsSome (label_of labels.now.known.items cell) }
    ensures { label_of labels.now.known.items cell ≡ Some result }
{
    labels.known[cell].get().unwrap()
}

/// A cell that a walk enters at a second, and the first second of its window.
#[derive(Clone, Copy)]
pub(crate) struct Entering {
    pub(crate) cell: usize,
    pub(crate) from: u32,
    pub(crate) enter: u32,
}

/// Whether a walk that can leave a cell as its label says goes on so.
fn enters_so(known: Known, last: u32, to: Entering) -> bool
    ensures { IsTrue result ↔ IsSomeAnd known (λ l. (max l.value to.from ≡ to.enter) × (to.enter ≤ last)) }
{
    match known.get() {
        None => false,
        Some(label) => label.value.max(to.from) == to.enter && to.enter <= last,
    }
}

/// The first of the cells of a part, and of the first one so far, that lead to the cell.
fn first_in<C: ForwardCells>(
    cells: &C,
    labels: &Labels,
    part: Part<C::Row>,
    to: Entering,
    first: usize,
) -> usize
    requires sound { IsProblem (C.problem cells.now) }
    requires room { HasRoom (C.problem cells.now).count (standing labels.now) }
    requires entering { IsEntering (C.problem cells.now) to }
    requires permitted { (x : ℕ) → IsIn part.run x → IsTrue ((C.problem cells.now).network.turn x to.cell) }
    requires told { (x : ℕ) → IsIn part.run x → C.tells cells.now part.row x }
    requires so_far { LeadsTo (C.problem cells.now) (standing labels.now).known to first }
    ensures first { IsFirstOf (C.problem cells.now) (standing labels.now).known to (IsIn part.run) result }
    ensures by { result ≤ first }
{
    for before in part.run.first..part.run.until.min(first) {
        let last = cells.cell_in(part.row, before).last;
        if enters_so(labels.known[before], last, to) {
            return before;
        }
    }
    first
}

/// The first of the cells that lead to the cell, of which one is known.
fn first_before<C: ForwardCells>(cells: &C, labels: &Labels, to: Entering, via: usize) -> usize
    requires sound { IsProblem (C.problem cells.now) }
    requires room { HasRoom (C.problem cells.now).count (standing labels.now) }
    requires windows { AreInWindows (C.problem cells.now) (standing labels.now).known }
    requires come_to { MayComeTo (C.problem cells.now) to.cell }
    requires entering { IsEntering (C.problem cells.now) to }
    requires via { LeadsTo (C.problem cells.now) (standing labels.now).known to via }
    ensures { IsFirstOf (C.problem cells.now) (standing labels.now).known to (λ x. ⊤) result }
{
    let place = cells.place(to.cell);
    let mut first = via;
    for run in 0..cells.runs_before(to.cell, place) {
        let part = cells.run_before(to.cell, place, run, to.enter);
        first = first_in(cells, labels, part, to, first);
    }
    first
}

/// The steps that are picked back from the goal, the last one first.
pub(crate) fn pick_back<C: ForwardCells>(
    alloc: Global,
    cells: &C,
    labels: &Labels,
    goal: Goal,
) -> Result<Vec<CellStep>, Memory>
    requires sound { IsProblem (C.problem cells.now) }
    requires ended { IsAtEnd (C.problem cells.now) (standing labels.now) (Some goal) }
    ensures { IfOk result (λ steps. IsPicked (C.problem cells.now).network (C.problem cells.now).starts ComesBefore
        (IsEarliestExit (C.problem cells.now).network (C.problem cells.now).starts) goal.cell goal.end goal.end (map step_of steps.items)) }
{
    let mut steps = Vec::with_capacity(alloc, USUAL_STEPS)?;
    let mut cell = goal.cell;
    let mut label = label_at(labels, cell);
    let mut leave = goal.end;
    'back: loop {
        if let Some(enter) = start_enter(cells, cell, label.value) {
            steps.push(CellStep { cell, enter, leave })?;
            return Ok(steps);
        }
        let window = cells.cell(cell);
        let enter = label.value - window.seconds;
        steps.push(CellStep { cell, enter, leave })?;
        let from = window.from;
        let to = Entering { cell, from, enter };
        cell = first_before(cells, labels, to, label.via);
        label = label_at(labels, cell);
        leave = enter;
    }
}
