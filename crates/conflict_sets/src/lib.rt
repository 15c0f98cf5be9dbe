//! Which segments conflict with which.
#![tactic(auto)]

ghost use Rattle.std.specs.Prelude.{◌≡◌, ◌<◌, ◌≤◌, All, IfOk};
ghost use Rattle.taxi_base.specs.Airport.{conflict, has_member};
ghost use Rattle.conflict_sets.specs.Conflicts.{ConflictSets, AreConflicts};

mod gather;

use gather::{conflict_rows, copies};
use packed_rows::PackedRows;
use std::alloc::Global;
use std::marker::Model;
use taxi_base::{List, Memory, Segment};

// A row of so many segments at most is gone through from its front: halving a short one costs more.
const SHORT: usize = 16;

/// The segments in conflict with each segment. Two segments conflict that are the same or stand together in a set.
#[derive(Drop)]
pub struct Conflicts {
    sets: Vec<List<Segment>>,
    // Each segment's own row, so that the sets are gone through only once.
    rows: PackedRows<Segment>,
}

impl Model for Conflicts {
    ghost use Rattle.std.specs.Prelude.{◌<◌, All, length};
    ghost use Rattle.conflict_sets.specs.Conflicts.{ConflictSets, AreConflictRows};

    ghost Value = { ConflictSets };

    ghost view = { λ c. record { segments = length c.rows; sets = c.sets.items } };

    ghost invariant = { λ c. AreConflictRows c.sets.items c.rows × All (All (λ m. m.0 < length c.rows)) c.sets.items };
}

impl Conflicts {
    /// The conflicts among so many segments by these sets.
    pub fn build(
        alloc: Global,
        segments: usize,
        sets: &[List<Segment>],
    ) -> Result<Conflicts, Memory>
        requires segments { segments ≤ 10000 }
        requires members { All (All (λ m. m.0 < segments)) sets.now }
        ensures { IfOk result (λ c. c ≡ record { segments = segments; sets = sets.now }) }
    {
        let rows = conflict_rows(alloc, segments, sets)?;
        let sets = copies(alloc, sets)?;
        Ok(Conflicts { sets, rows })
    }

    /// The sets, in the order in which they were given.
    pub fn sets(&self) -> &[List<Segment>]
        ensures { result.now ≡ self.now.sets }
    {
        self.sets.as_slice()
    }

    /// The segments in conflict with this one, itself among them, in order of number.
    pub fn of(&self, segment: Segment) -> &[Segment]
        requires { segment.0 < self.now.segments }
        ensures all { AreConflicts self.now.sets segment result.now }
        ensures exist { All (λ t. t.0 < self.now.segments) result.now }
    {
        self.rows.row(segment.0 as usize)
    }

    /// Whether two segments conflict.
    pub fn conflict(&self, s: Segment, t: Segment) -> bool
        requires { s.0 < self.now.segments }
        ensures { result ≡ conflict self.now.sets s t }
    {
        let row = self.of(s);
        if row.len() > SHORT {
            return row.binary_search(&t).is_ok();
        }
        has_member(row, t)
    }
}

// Whether a segment is in a row.
fn has_member(row: &[Segment], t: Segment) -> bool
    ensures { result ≡ has_member row.now t }
{
    row.iter().any(|s| *s == t)
}
