//! Settling one cell after another, always one of least value.
ghost use Rattle.std.specs.Prelude.{◌≡◌, ◌<◌, ◌≤◌, ◌+◌, ◌^◌, max, ℕ, None, IfSome, IfNone};
ghost use Rattle.label_core.specs.Labels.{IsStartEntry};
ghost use Rattle.label_queue.specs.Keys.{key_of};
ghost use Rattle.label_search.specs.Problem.{IsProblem};
ghost use Rattle.label_search.specs.Labels.{standing, label_of};
ghost use Rattle.label_search.specs.Expanding.{HasRoom};
ghost use Rattle.label_search.specs.Begun.{IsBegun, InRuns};
ghost use Rattle.label_search.specs.Standing.{IsUnderway, IsAtEnd};
ghost use Rattle.label_search.specs.Reached.{HasReached};

use crate::cells::{Cell, ForwardCells, Opening};
use crate::expand::{Ready, expand};
use crate::labels::{Label, Labels};

/// A target and the best end, which is its value.
#[derive(Clone, Copy)]
pub(crate) struct Goal {
    pub(crate) cell: usize,
    pub(crate) end: u32,
}

/// When a walk that begins in the cell leaves it at the soonest, if one may begin there.
#[inline(always)]
pub(crate) fn start_entry<C: ForwardCells>(cells: &C, cell: usize) -> Option<u32>
    requires sound { IsProblem (C.problem cells.now) }
    requires inside { cell < (C.problem cells.now).count }
    ensures some { IfSome result (λ t. IsStartEntry (C.problem cells.now).network (C.problem cells.now).starts cell t) }
    ensures none { IfNone result ((t : ℕ) → IsStartEntry (C.problem cells.now).network (C.problem cells.now).starts cell t → ⊥) }
{
    match cells.start(cell) {
        None => None,
        Some(start) => start_leave(start, cells.cell(cell)),
    }
}

/// When a walk that begins as the opening says leaves the cell at the soonest, if it may begin so.
fn start_leave(start: Opening, cell: Cell) -> Option<u32>
    requires small_last { cell.last < 2 ^ 31 }
    requires small_seconds { cell.seconds < 2 ^ 31 }
    ensures value { IfSome result (λ t. t ≡ max start.exit_from (max start.earliest cell.from + cell.seconds)) }
    ensures not_late { IfSome result (λ t. max start.earliest cell.from ≤ start.latest) }
    ensures in_time { IfSome result (λ t. t ≤ cell.last) }
    ensures none { IfNone result (max start.earliest cell.from ≤ start.latest
        → max start.exit_from (max start.earliest cell.from + cell.seconds) ≤ cell.last → ⊥) }
{
    let enter = start.earliest.max(cell.from);
    if enter > start.latest || enter > cell.last {
        return None;
    }
    let leave = start.exit_from.max(enter + cell.seconds);
    if leave > cell.last { None } else { Some(leave) }
}

/// Labels the cells in which a walk may begin.
pub(crate) fn begin<C: ForwardCells>(cells: &C, labels: &mut Labels)
    requires sound { IsProblem (C.problem cells.now) }
    requires room { HasRoom (C.problem cells.now).count (standing labels.old) }
    requires unlabelled { (c : ℕ) → label_of labels.old.known.items c ≡ None }
    requires unqueued { (c : ℕ) → key_of labels.old.queue c ≡ None }
    ensures { IsUnderway (C.problem cells.now) (standing labels.new) }
{
    for run in 0..cells.first_runs() {
        begin_run(cells, run, labels);
    }
}

/// Labels those of one more run.
fn begin_run<C: ForwardCells>(cells: &C, run: usize, labels: &mut Labels)
    requires sound { IsProblem (C.problem cells.now) }
    requires is_run { run < (C.problem cells.now).first_runs }
    requires begun { IsBegun (C.problem cells.now) (InRuns (C.problem cells.now) run) (standing labels.old) }
    ensures { IsBegun (C.problem cells.now) (InRuns (C.problem cells.now) (run + 1)) (standing labels.new) }
{
    let part = cells.first_run(run);
    for cell in part.first..part.until {
        if let Some(value) = start_entry(cells, cell) {
            labels.offer(cell, Label { value, via: cell });
        }
    }
}

/// Settles cells until a target is the next, or none is left.
pub(crate) fn settle<C: ForwardCells>(
    cells: &C,
    labels: &mut Labels,
    reached: &mut [u32],
) -> Option<Goal>
    requires sound { IsProblem (C.problem cells.now) }
    requires underway { IsUnderway (C.problem cells.now) (standing labels.old) }
    requires reached { HasReached (C.problem cells.now) (standing labels.old) reached.old }
    ensures { IsAtEnd (C.problem cells.now) (standing labels.new) result }
{
    while let Some((cell, at)) = labels.queue.pop_least() {
        let place = cells.place(cell);
        if cells.is_target(cell, place) {
            return Some(Goal { cell, end: at });
        }
        let last = cells.last(cell, place);
        expand(cells, Ready { cell, last, at }, place, labels, reached);
    }
    None
}
