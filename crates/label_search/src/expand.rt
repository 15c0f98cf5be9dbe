//! Expanding a cell: what a walk that can leave it adds to the labels of the cells that may follow.
ghost use Rattle.std.specs.Prelude.{◌≡◌, ℕ, ◌+◌, ◌<◌, ◌≤◌, ◌^◌, max, length, IsTrue, IfSome, IfNone, ⊤};
ghost use Rattle.label_search.specs.Problem.{IsProblem, IsIn};
ghost use Rattle.label_search.specs.Labels.{standing};
ghost use Rattle.label_search.specs.Expanding.{IsExpanded, HasRoom, IsReady};
ghost use Rattle.label_search.specs.Reached.{AreReached};

use crate::cells::{Cell, ForwardCells, Run};
use crate::labels::{Label, Labels};

/// A cell that is expanded: its number, the last second at which a step in it may leave, and the soonest at which a walk
/// can leave it.
#[derive(Clone, Copy)]
pub(crate) struct Ready {
    pub(crate) cell: usize,
    pub(crate) last: u32,
    pub(crate) at: u32,
}

/// When a walk that goes on from the cell to the next leaves that at the soonest, if it may go on.
fn leave_after(from: Ready, next: Cell) -> Option<u32>
    requires small_last { next.last < 2 ^ 31 }
    requires small_seconds { next.seconds < 2 ^ 31 }
    ensures value { IfSome result (λ t. t ≡ max from.at next.from + next.seconds) }
    ensures held { IfSome result (λ t. max from.at next.from ≤ from.last) }
    ensures in_time { IfSome result (λ t. t ≤ next.last) }
    ensures none { IfNone result (max from.at next.from ≤ from.last → max from.at next.from + next.seconds ≤ next.last → ⊥) }
{
    let enter = from.at.max(next.from);
    if enter > from.last || enter > next.last {
        return None;
    }
    let leave = enter + next.seconds;
    if leave > next.last { None } else { Some(leave) }
}

/// Offers the next cell its expansion.
fn expand_to<C: ForwardCells>(cells: &C, from: Ready, row: C::Row, next: usize, labels: &mut Labels)
    requires sound { IsProblem (C.problem cells.now) }
    requires room { HasRoom (C.problem cells.now).count (standing labels.old) }
    requires ready { IsReady (C.problem cells.now) from }
    requires permitted { IsTrue ((C.problem cells.now).network.turn from.cell next) }
    requires told { C.tells cells.now row next }
    ensures { IsExpanded (C.problem cells.now).network from.cell from.at (λ d. d ≡ next) (standing labels.old) (standing labels.new) }
{
    if let Some(value) = leave_after(from, cells.cell_in(row, next)) {
        let via = from.cell;
        labels.offer(next, Label { value, via });
    }
}

/// Offers each cell of the part of a run its expansion.
fn expand_run<C: ForwardCells>(cells: &C, from: Ready, run: Run, row: C::Row, labels: &mut Labels)
    requires sound { IsProblem (C.problem cells.now) }
    requires room { HasRoom (C.problem cells.now).count (standing labels.old) }
    requires ready { IsReady (C.problem cells.now) from }
    requires permitted { (d : ℕ) → IsIn run d → IsTrue ((C.problem cells.now).network.turn from.cell d) }
    requires told { (d : ℕ) → IsIn run d → C.tells cells.now row d }
    ensures { IsExpanded (C.problem cells.now).network from.cell from.at (IsIn run) (standing labels.old) (standing labels.new) }
{
    for next in run.first..run.until {
        expand_to(cells, from, row, next, labels);
    }
}

/// Offers each cell of a run that may follow its expansion. Those that had a label as good before are not looked at again.
fn expand_next<C: ForwardCells>(
    cells: &C,
    from: Ready,
    place: C::Place,
    run: usize,
    labels: &mut Labels,
    reached: &mut [u32],
)
    requires sound { IsProblem (C.problem cells.now) }
    requires room { HasRoom (C.problem cells.now).count (standing labels.old) }
    requires ready { IsReady (C.problem cells.now) from }
    requires stands { C.stands cells.now place from.cell }
    requires is_run { run < (C.problem cells.now).runs from.cell }
    requires numbers { (C.problem cells.now).numbers ≤ length reached.old }
    requires reached { AreReached (C.problem cells.now) (standing labels.old).known from.at reached.old }
    ensures expanded { IsExpanded (C.problem cells.now).network from.cell from.at (IsIn ((C.problem cells.now).run ((C.problem cells.now).number from.cell run)))
        (standing labels.old) (standing labels.new) }
    ensures numbers { length reached.new ≡ length reached.old }
    ensures reached { AreReached (C.problem cells.now) (standing labels.new).known from.at reached.new }
{
    let number = cells.number(from.cell, place, run);
    let until = reached[number];
    if until > from.last {
        return;
    }
    let part = cells.run(from.cell, place, run, from.at.max(until), from.last);
    expand_run(cells, from, part.run, part.row, labels);
    reached[number] = from.last + 1;
}

/// Offers each cell that may follow its expansion.
pub(crate) fn expand<C: ForwardCells>(
    cells: &C,
    from: Ready,
    place: C::Place,
    labels: &mut Labels,
    reached: &mut [u32],
)
    requires sound { IsProblem (C.problem cells.now) }
    requires room { HasRoom (C.problem cells.now).count (standing labels.old) }
    requires ready { IsReady (C.problem cells.now) from }
    requires stands { C.stands cells.now place from.cell }
    requires numbers { (C.problem cells.now).numbers ≤ length reached.old }
    requires reached { AreReached (C.problem cells.now) (standing labels.old).known from.at reached.old }
    ensures expanded { IsExpanded (C.problem cells.now).network from.cell from.at (λ d. ⊤) (standing labels.old) (standing labels.new) }
    ensures numbers { length reached.new ≡ length reached.old }
    ensures reached { AreReached (C.problem cells.now) (standing labels.new).known from.at reached.new }
{
    for run in 0..cells.runs(from.cell, place) {
        expand_next(cells, from, place, run, labels, reached);
    }
}
