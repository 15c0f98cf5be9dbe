//! How long each class of aircraft takes on each segment at least, and for how long it keeps one shut after leaving it.
#![tactic(auto)]

ghost use Rattle.std.specs.Prelude.{◌≡◌, ◌+◌, ◌<◌, ◌≤◌, ◌++◌, ◌∷◌, [], Some, None, length, replicate, slice_set, slice_index_or, All, IfSome, IfOk, OnOk, OnErr};
ghost use Rattle.taxi_base.specs.Airport.{seconds_in};
ghost use Rattle.aircraft_class.specs.Times.{Times, IsTime};

use std::alloc::Global;
use std::marker::Model;
use taxi_base::{Class, Memory, Segment, Time};

/// A table of least times by class and segment, and of clearances by class, in seconds. A class may not use a segment where
/// it has no time.
#[derive(Drop)]
pub struct Classes {
    segments: usize,
    rows: Vec<Row>,
}

// What is kept of a class.
#[derive(Drop)]
struct Row {
    times: Vec<Option<Time>>,
    clearance: Time,
}

impl Model for Classes {
    ghost use Rattle.std.specs.Prelude.{map};
    ghost use Rattle.aircraft_class.specs.Times.{Times, AreTimes};

    ghost Value = { Times };

    ghost view = { λ c. record { segments = c.segments; table = map (λ row. row.times.items) c.rows.items; clearances = map (λ row. row.clearance) c.rows.items } };

    ghost invariant = { λ c. AreTimes (record { segments = c.segments; table = map (λ row. row.times.items) c.rows.items; clearances = map (λ row. row.clearance) c.rows.items }) };
}

impl Classes {
    /// No class yet, on so many segments.
    pub fn new(alloc: Global, segments: usize) -> Result<Classes, Memory>
        ensures { IfOk result (λ c. c ≡ record { segments = segments; table = []; clearances = [] }) }
    {
        let rows = Vec::with_capacity(alloc, MOST_CLASSES)?;
        Ok(Classes { segments, rows })
    }

    /// How many classes there are.
    pub fn count(&self) -> usize
        ensures { result ≡ length self.now.table }
    {
        self.rows.len()
    }

    /// One more class, which may use no segment yet and has no clearance.
    pub fn class(&mut self) -> Result<Class, Memory>
        requires { length self.old.table < 32 }
        ensures number { IfOk result (λ c. c.0 ≡ length self.old.table) }
        ensures ok { OnOk result (self.new ≡ record self.old { table = self.old.table ++ replicate self.old.segments None ∷ []; clearances = self.old.clearances ++ 0 ∷ [] }) }
        ensures err { OnErr result (self.new ≡ self.old) }
    {
        let class = Class(self.rows.len() as u32);
        let times = Vec::from_elem(*self.rows.allocator(), None, self.segments)?;
        let clearance = 0;
        self.rows.push(Row { times, clearance })?;
        Ok(class)
    }

    /// Sets a class's least time on a segment, in seconds.
    pub fn set(&mut self, class: Class, segment: Segment, seconds: Time)
        requires class { class.0 < length self.old.table }
        requires segment { segment.0 < self.old.segments }
        requires seconds { IsTime seconds }
        ensures { self.new ≡ record self.old { table = slice_set self.old.table class.0 (slice_set (slice_index_or self.old.table class.0 []) segment.0 (Some seconds)) } }
    {
        let row = &mut self.rows[class.0 as usize];
        row.times[segment.0 as usize] = Some(seconds);
    }

    /// A class's row of the table, read at once for many segments; empty for a number that no class has.
    pub fn times(&self, class: Class) -> &[Option<Time>]
        ensures row { result.now ≡ slice_index_or self.now.table class.0 [] }
        ensures range { All (λ place. IfSome place IsTime) result.now }
    {
        match self.rows.get(class.0 as usize) {
            Some(row) => &row.times,
            None => &[],
        }
    }

    /// A class's least time on a segment, in seconds; none where it was not set.
    pub fn seconds(&self, class: Class, segment: Segment) -> Option<Time>
        ensures set { result ≡ seconds_in self.now.table class segment }
        ensures range { IfSome result IsTime }
    {
        time_in(self.times(class), segment)
    }

    /// Sets for how long a class keeps a segment shut after leaving it, in seconds.
    pub fn set_clearance(&mut self, class: Class, seconds: Time)
        requires class { class.0 < length self.old.table }
        requires seconds { seconds ≤ 600 }
        ensures { self.new ≡ record self.old { clearances = slice_set self.old.clearances class.0 seconds } }
    {
        self.rows[class.0 as usize].clearance = seconds;
    }

    /// For how long a class keeps a segment shut after leaving it, in seconds; 0 where none was set.
    pub fn clearance(&self, class: Class) -> Time
        ensures set { result ≡ slice_index_or self.now.clearances class.0 0 }
        ensures range { result ≤ 600 }
    {
        match self.rows.get(class.0 as usize) {
            Some(row) => row.clearance,
            None => 0,
        }
    }
}

/// The least time on a segment in a class's row, in seconds; none where it was not set.
pub fn time_in(times: &[Option<Time>], segment: Segment) -> Option<Time>
    ensures { result ≡ slice_index_or times.now segment.0 None }
{
    times.get(segment.0 as usize).copied().flatten()
}

const MOST_CLASSES: usize = 32;
