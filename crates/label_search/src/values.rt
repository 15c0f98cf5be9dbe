//! The values that are handed out of labels.
ghost use Rattle.std.specs.Prelude.{◌≡◌, ℕ, ◌+◌, ◌/◌, ◌<◌, ◌≤◌, List, [], min, length, map, slice_set, Option, None, Some, OnOk};
ghost use Rattle.std.specs.Int.{bit_at};
ghost use Rattle.label_search.specs.declared.labels.Label.{Label as KnownLabel};
ghost use Rattle.label_search.specs.Problem.{IsProblem, MayComeTo};
ghost use Rattle.label_search.specs.Labels.{label_of};
ghost use Rattle.label_search.specs.Groups.{AreMarked, HaveNothing};
ghost use Rattle.label_search.specs.Values.{rows_from, value_kept, values_kept, AreAsBeforeFrom, AreRowsTo};

use crate::cells::ForwardCells;
use crate::groups::GROUP;
use crate::known::Known;
use std::alloc::Global;
use taxi_base::{List, Memory};

/// A cell and its value.
#[derive(Clone, Copy, Debug, PartialEq, Eq)]
pub struct CellValue {
    pub cell: usize,
    pub value: u32,
}

/// Takes the label of a cell away.
fn take_label(known: &mut [Known], cell: usize) -> Known
    requires { cell < length known.old }
    ensures label { result ≡ label_of known.old cell }
    ensures taken { known.new ≡ slice_set known.old cell None }
{
    let label = known[cell];
    known[cell] = Known::none();
    label
}

/// Tells the values below the bound, or all where there is none, by cell, and takes all labels away. Each is of a marked cell.
pub(crate) fn take_marked<C: ForwardCells>(
    cells: &C,
    rows: &mut List<C::Told>,
    known: &mut [Known],
    groups: &mut [u64],
    bound: Option<u32>,
) -> Result<(), Memory>
    requires sound { IsProblem (C.problem cells.now) }
    requires come_to { (c : ℕ) (label : KnownLabel) → label_of known.old c ≡ Some label → MayComeTo (C.problem cells.now) c }
    requires none_yet { rows.old ≡ [] }
    requires counted { length groups.old ≡ length known.old / 64 + 1 }
    requires marked { AreMarked known.old groups.old }
    ensures known { length known.new ≡ length known.old }
    ensures groups { length groups.new ≡ length groups.old }
    ensures marked { AreMarked known.new groups.new }
    ensures taken { OnOk result (HaveNothing known.new) }
    ensures rows { OnOk result (rows.new ≡ map (C.told cells.now) (rows_from 0 (values_kept bound known.old))) }
{
    // There may be room for more cells than there are.
    let until = groups.len().min(cells.count() / GROUP + 1);
    for group in 0..until {
        let marks = groups[group];
        if marks != 0 {
            take_group(cells, rows, known, bound, group * GROUP, marks)?;
            groups[group] = 0;
        }
    }
    Ok(())
}

/// Tells the values below the bound of the marked cells of a group, and takes their labels away. `all` are the labels before any
/// was taken away.
fn take_group<C: ForwardCells>(
    cells: &C,
    rows: &mut List<C::Told>,
    known: &mut [Known],
    bound: Option<u32>,
    first: usize,
    marks: u64,
) -> Result<(), Memory>
    requires come_to { (c : ℕ) (label : KnownLabel) → first ≤ c → label_of known.old c ≡ Some label → MayComeTo (C.problem cells.now) c }
    requires inside { (k : ℕ) → k < 64 → bit_at marks k ≡ 1 → first + k < length known.old }
    requires unmarked { (k : ℕ) → k < 64 → bit_at marks k ≡ 0 → label_of known.old (first + k) ≡ None }
    ensures length { length known.new ≡ length known.old }
    ensures taken { OnOk result ((k : ℕ) → k < 64 → bit_at marks k ≡ 1 → label_of known.new (first + k) ≡ None) }
    ensures others { (c : ℕ) → label_of known.old c ≡ None → label_of known.new c ≡ None }
    ensures rest { (c : ℕ) → first + 64 ≤ c → label_of known.new c ≡ label_of known.old c }
    ensures rows { (all : List (Option KnownLabel)) → AreAsBeforeFrom first all known.old → length all ≡ length known.old
        → AreRowsTo (C.told cells.now) bound all (min first (length all)) rows.old
        → OnOk result (AreRowsTo (C.told cells.now) bound all (min (first + 64) (length all)) rows.new) }
{
    let mut left = marks;
    'cells: while left != 0 {
        let lowest = left.trailing_zeros();
        left &= !(1u64 << lowest);
        let cell = first + lowest as usize;
        if let Some(value) = take_label(known, cell).value_below(bound) {
            rows.push(cells.tell(CellValue { cell, value }))?;
        }
    }
    Ok(())
}
