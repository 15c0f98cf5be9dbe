//! Labels as they come: a cell is offered one, and keeps the best.
ghost use Rattle.std.specs.Prelude.{◌≡◌, ◌<◌, ◌^◌, ℕ, length, map, replicate, Some, None, IfOk, OnOk, slice_set};
ghost use Rattle.label_queue.specs.Keys.{key_of};
ghost use Rattle.label_search.specs.declared.labels.Label.{Label as KnownLabel};
ghost use Rattle.label_search.specs.Problem.{IsProblem, MayComeTo};
ghost use Rattle.label_search.specs.Labels.{IsImproved, standing, label_of};
ghost use Rattle.label_search.specs.Expanding.{HasRoom};
ghost use Rattle.label_search.specs.Values.{rows_from, values_kept};

use crate::cells::ForwardCells;
use crate::groups::{GROUP, mark};
use crate::known::Known;
use crate::labels::{Label, Labels};
use crate::values::take_marked;
use label_queue::LabelQueue;
use std::alloc::Global;
use taxi_base::{List, Memory};

/// There are so many cells at most, so that a label takes eight bytes.
const CELLS: usize = 4294967295;

impl Labels {
    /// No label yet, with room for so many cells. There is none for 2^32 cells or more.
    pub(crate) fn new(alloc: Global, count: usize) -> Result<Labels, Memory>
        ensures known { IfOk result (λ l. l.known.items ≡ replicate count None) }
        ensures queue { IfOk result (λ l. l.queue ≡ replicate count None) }
    {
        if count > CELLS {
            return Err(Memory::for_so_many(count));
        }
        Ok(Labels {
            known: Vec::from_elem(alloc, Known::none(), count)?,
            queue: LabelQueue::new(alloc, count)?,
            groups: Vec::from_elem(alloc, 0, count / GROUP + 1)?,
            touched: false,
            usual: 0,
        })
    }

    /// No label again, with room for so many cells.
    pub(crate) fn renew(&mut self, alloc: Global, count: usize) -> Result<(), Memory>
        ensures room { OnOk result (HasRoom count (standing self.new)) }
        ensures unlabelled { OnOk result ((c : ℕ) → label_of self.new.known.items c ≡ None) }
        ensures unqueued { OnOk result ((c : ℕ) → key_of self.new.queue c ≡ None) }
    {
        if self.known.len() < count {
            *self = Labels::new(alloc, count.saturating_add(count / 2))?;
        } else if self.touched {
            self.clear();
        }
        Ok(())
    }

    /// No label again. It goes over the room for all cells, and is called only where memory ran out in the search before.
    fn clear(&mut self)
        ensures known { length self.new.known.items ≡ length self.old.known.items }
        ensures queue { self.new.queue ≡ replicate (length self.old.queue) None }
        ensures unlabelled { (c : ℕ) → label_of self.new.known.items c ≡ None }
    {
        self.known.fill(Known::none());
        self.groups.fill(0);
        self.touched = false;
        self.queue.clear();
    }

    /// Gives the cell the label, unless it has one that is as good.
    pub(crate) fn offer(&mut self, cell: usize, label: Label)
        requires known { cell < length self.old.known.items }
        requires queue { cell < length self.old.queue }
        requires small_value { label.value < 2 ^ 31 }
        requires small_via { label.via < length self.old.known.items }
        ensures { IsImproved (standing self.old) (standing self.new) cell label }
    {
        let old = self.known[cell];
        if old.gets_less_by(label) {
            self.write(cell, label);
            match old.get() {
                None => self.queue.insert(cell, label.value),
                Some(_) => self.queue.insert_or_lower(cell, label.value),
            }
        }
    }

    /// Gives the cell the label.
    fn write(&mut self, cell: usize, label: Label)
        requires known { cell < length self.old.known.items }
        requires small_value { label.value < 2 ^ 31 }
        requires small_via { label.via < length self.old.known.items }
        ensures known { self.new.known.items ≡ slice_set self.old.known.items cell (Some label) }
        ensures queue { self.new.queue ≡ self.old.queue }
    {
        self.touched = true;
        mark(&mut self.groups, cell);
        self.known[cell] = Known::of(label);
    }

    /// What is told of the values below the bound, or of all where there is none, by cell. All labels are taken away with them, so
    /// that the next search finds none.
    pub(crate) fn take_rows<C: ForwardCells>(
        &mut self,
        alloc: Global,
        cells: &C,
        bound: Option<u32>,
    ) -> Result<List<C::Told>, Memory>
        requires sound { IsProblem (C.problem cells.now) }
        requires come_to { (c : ℕ) (label : KnownLabel) → label_of self.old.known.items c ≡ Some label → MayComeTo (C.problem cells.now) c }
        ensures { IfOk result (λ rows. rows ≡ map (C.told cells.now) (rows_from 0 (values_kept bound self.old.known.items))) }
    {
        let mut rows = List::with_capacity(alloc, self.usual)?;
        self.queue.clear();
        // Where memory runs out, some labels are left.
        self.touched = true;
        take_marked(cells, &mut rows, &mut self.known, &mut self.groups, bound)?;
        self.touched = false;
        self.usual = usual_after(self.usual, rows.as_slice().len());
        Ok(rows)
    }
}

/// For how many rows the next search makes room at once, after one that handed out so many: as many, or nearly as many as before.
fn usual_after(usual: usize, rows: usize) -> usize {
    rows.max(usual - usual / 64)
}
