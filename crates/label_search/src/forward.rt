//! The search forward in time: earliest exits, and the route with the earliest end.
ghost use Rattle.std.specs.Prelude.{◌≡◌, ℕ, ◌≤◌, ◌^◌, length, slice_index_or, OnOk, map, reverse, is_some, IsTrue, IfSome, IfNone, IfOk};
ghost use Rattle.label_core.specs.Walks.{IsEarliestExit};
ghost use Rattle.label_core.specs.Picked.{IsPicked};
ghost use Rattle.label_search.specs.Problem.{IsProblem};
ghost use Rattle.label_search.specs.Labels.{standing};
ghost use Rattle.label_search.specs.Promised.{IsBestFor, IsPickedFor, HasNoWalkFor, TellExitsOf};
ghost use Rattle.label_search.specs.Standing.{IsAtEnd};
ghost use Rattle.label_search.specs.Answer.{best_of, end_of_goal};

use crate::cells::ForwardCells;
use crate::cut::CutCells;
use crate::labels::Labels;
use crate::pick::{CellStep, pick_back};
use crate::settle::{Goal, begin, settle};
use std::alloc::Global;
use taxi_base::{List, Memory};

/// A walk, step by step, and the best end, or for a search backward the best begin.
#[derive(Drop)]
pub struct Route {
    pub steps: Vec<CellStep>,
    pub best: u32,
}

/// What is told of the values of cells, by cell, and the picked route, if there is a walk to a target.
#[derive(Drop)]
pub struct Found<T: Copy + Drop> {
    pub rows: List<T>,
    pub route: Option<Route>,
}

/// What searches use up, kept from one to the next so that none makes it anew.
#[derive(Drop)]
pub struct LabelRoom {
    labels: Labels,
    // For each run the second before which its cells need not be looked at again.
    reached: Vec<u32>,
    // For how many seconds after walks begin searches look first.
    reach: u32,
}

impl LabelRoom {
    /// Room for no search yet. It grows with the searches.
    pub fn new(alloc: Global) -> Result<LabelRoom, Memory> {
        Ok(LabelRoom {
            labels: Labels::new(alloc, 0)?,
            reached: Vec::new(alloc),
            reach: 0,
        })
    }
}

/// The picked one of the walks that end earliest, if there is a walk, and all earliest exits before its end. Where there
/// is no walk the table has all earliest exits.
pub fn earliest_exits<C: ForwardCells>(
    alloc: Global,
    room: &mut LabelRoom,
    cells: &C,
) -> Result<Found<C::Told>, Memory>
    requires sound { IsProblem (C.problem cells.now) }
    ensures table { IfOk result (λ found. TellExitsOf (C.told cells.now) (C.problem cells.now) (best_of found.route) found.rows) }
    ensures best { IfOk result (λ found. IfSome (best_of found.route) (IsBestFor (C.problem cells.now))) }
    ensures picked { IfOk result (λ found. IfSome found.route (IsPickedFor (C.problem cells.now))) }
    ensures none { IfOk result (λ found. IfNone (best_of found.route) (HasNoWalkFor (C.problem cells.now))) }
{
    let begins = cells.begins();
    let until = begins.saturating_add(room.reach);
    let near = search(alloc, &mut room.labels, &mut room.reached, cells, until)?;
    let found = if near.route.is_some() {
        near
    } else {
        search(alloc, &mut room.labels, &mut room.reached, cells, u32::MAX)?
    };
    if let Some(route) = &found.route {
        room.reach = reach_after(room.reach, route.best.saturating_sub(begins));
    }
    Ok(found)
}

/// For how many seconds the next search looks first, after one that took so many: half as many again, or nearly as many as before.
fn reach_after(reach: u32, taken: u32) -> u32 {
    taken.saturating_add(taken / 2).max(reach - reach / 64)
}

/// The same as far as walks end by a second: what is found if there is such a walk to a target, and else that there is none. All
/// of it is so where no step may leave after that second.
fn search<C: ForwardCells>(
    alloc: Global,
    labels: &mut Labels,
    reached: &mut Vec<u32>,
    cells: &C,
    until: u32,
) -> Result<Found<C::Told>, Memory>
    requires sound { IsProblem (C.problem cells.now) }
    ensures short { IfOk result (λ found. IsTrue (is_some (best_of found.route)) → TellExitsOf (C.told cells.now) (C.problem cells.now) (best_of found.route) found.rows) }
    ensures all { IfOk result (λ found. 2 ^ 31 ≤ until → TellExitsOf (C.told cells.now) (C.problem cells.now) (best_of found.route) found.rows) }
    ensures best { IfOk result (λ found. IfSome (best_of found.route) (IsBestFor (C.problem cells.now))) }
    ensures picked { IfOk result (λ found. IfSome found.route (IsPickedFor (C.problem cells.now))) }
    ensures none { IfOk result (λ found. 2 ^ 31 ≤ until → IfNone (best_of found.route) (HasNoWalkFor (C.problem cells.now))) }
{
    let found = search_cells(alloc, labels, reached, &CutCells { cells, until })?;
    Ok(found)
}

/// The picked one of the walks that end earliest, if there is a walk, and all earliest exits before its end.
fn search_cells<C: ForwardCells>(
    alloc: Global,
    labels: &mut Labels,
    reached: &mut Vec<u32>,
    cells: &C,
) -> Result<Found<C::Told>, Memory>
    requires sound { IsProblem (C.problem cells.now) }
    ensures table { IfOk result (λ found. TellExitsOf (C.told cells.now) (C.problem cells.now) (best_of found.route) found.rows) }
    ensures best { IfOk result (λ found. IfSome (best_of found.route) (IsBestFor (C.problem cells.now))) }
    ensures picked { IfOk result (λ found. IfSome found.route (IsPickedFor (C.problem cells.now))) }
    ensures none { IfOk result (λ found. IfNone (best_of found.route) (HasNoWalkFor (C.problem cells.now))) }
{
    labels.renew(alloc, cells.count())?;
    begin(cells, labels);
    reach_none(alloc, reached, cells.numbers())?;
    let goal = settle(cells, labels, reached);
    let route = route_to(alloc, cells, labels, goal)?;
    let rows = labels.take_rows(alloc, cells, end_of_goal(goal))?;
    Ok(Found { rows, route })
}

/// Nothing is reached yet of so many runs.
fn reach_none(alloc: Global, reached: &mut Vec<u32>, runs: usize) -> Result<(), Memory>
    ensures room { OnOk result (runs ≤ length reached.new.items) }
    ensures none { OnOk result ((r : ℕ) → slice_index_or reached.new.items r 0 ≡ 0) }
{
    if reached.len() < runs {
        *reached = Vec::from_elem(alloc, 0, runs)?;
    } else {
        reached.fill(0);
    }
    Ok(())
}

/// The goal's value.
fn end_of_goal(goal: Option<Goal>) -> Option<u32>
    ensures { result ≡ end_of_goal goal }
{
    goal.map(|goal| goal.end)
}

/// The route that is picked back from the goal, if there is one.
fn route_to<C: ForwardCells>(
    alloc: Global,
    cells: &C,
    labels: &Labels,
    goal: Option<Goal>,
) -> Result<Option<Route>, Memory>
    requires sound { IsProblem (C.problem cells.now) }
    requires ended { IsAtEnd (C.problem cells.now) (standing labels.now) goal }
    ensures same_end { IfOk result (λ route. best_of route ≡ end_of_goal goal) }
    ensures picked { IfOk result (λ route. IfSome route (IsPickedFor (C.problem cells.now))) }
{
    let Some(goal) = goal else {
        return Ok(None);
    };
    let mut steps = pick_back(alloc, cells, labels, goal)?;
    steps.reverse();
    let best = goal.end;
    Ok(Some(Route { steps, best }))
}
