//! What is known of the arcs while a table is checked: stretches of seconds in which each label that is reached has a row.
ghost use Rattle.std.specs.Prelude.{ℕ, List, Option, IsTrue};
ghost use Rattle.taxi_base.specs.declared.rows.LabelRow.{LabelRow};
ghost use Rattle.taxi_base.specs.Walks.{Conditions};
ghost use Rattle.table_rows.specs.declared.reach.Way.{Way};
ghost use Rattle.table_rows.specs.HasRows.{HasEach};
ghost use Rattle.table_rows.specs.Reached.{IsReachedAt};
ghost use Rattle.table_rows.specs.Served.{AreServed};

use crate::reach::{Reach, is_within};
use std::alloc::Global;
use taxi_base::{Arc, Memory, Time};

/// From a second on, and by another.
#[derive(Clone, Copy)]
struct Stretch {
    from: Time,
    by: Time,
}

/// The stretches of one arc that were found last.
#[derive(Clone, Copy)]
struct ArcStretches {
    newer: Stretch,
    older: Stretch,
}

/// Nothing is reached in a stretch that ends before it begins.
const EMPTY: Stretch = Stretch { from: 1, by: 0 };

const NONE: ArcStretches = ArcStretches {
    newer: EMPTY,
    older: EMPTY,
};

/// Of each arc by its number, stretches of seconds in which each label of the arc that is reached has a row.
#[derive(Drop)]
pub struct Served {
    arcs: Vec<ArcStretches>,
}

impl Served {
    /// Of no arc.
    pub fn new(alloc: Global) -> Served {
        Served {
            arcs: Vec::new(alloc),
        }
    }

    /// Makes room for one more arc.
    pub fn add_arc(&mut self) -> Result<(), Memory> {
        self.arcs.push(NONE)?;
        Ok(())
    }

    /// Forgets all stretches.
    pub fn forget(&mut self)
        ensures { (way : Way) (c : Conditions) (bound : Option ℕ) (rows : List LabelRow) → AreServed way c bound rows self.new }
    {
        self.arcs.fill(NONE);
    }

    /// Whether a reach of an arc lies within a stretch that is kept.
    #[inline(always)]
    pub fn holds(&self, reach: Reach, arc: Arc) -> bool
        ensures { (c : Conditions) (bound : Option ℕ) (rows : List LabelRow) → AreServed reach.way c bound rows self.now → IsTrue result → HasEach reach.way (IsReachedAt c reach arc) bound rows }
    {
        match self.arcs.get(arc.0 as usize) {
            Some(kept) => {
                is_within(reach, kept.newer.from, kept.newer.by)
                    || is_within(reach, kept.older.from, kept.older.by)
            }
            None => false,
        }
    }

    /// Keeps the stretch of a reach of an arc, in place of the older one.
    pub fn keep(&mut self, reach: Reach, arc: Arc)
        ensures { (c : Conditions) (bound : Option ℕ) (rows : List LabelRow) → HasEach reach.way (IsReachedAt c reach arc) bound rows → AreServed reach.way c bound rows self.old → AreServed reach.way c bound rows self.new }
    {
        let at = arc.0 as usize;
        if at < self.arcs.len() {
            let newer = Stretch {
                from: reach.from,
                by: reach.by,
            };
            let older = self.arcs[at].newer;
            self.arcs[at] = ArcStretches { newer, older };
        }
    }
}
