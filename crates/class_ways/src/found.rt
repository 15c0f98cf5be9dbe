//! Arcs that are found one after the other.
ghost use Rattle.std.specs.Prelude.{◌≡◌, ◌<◌, ◌≤◌, [], length, slice_get, IfOk, OnOk};
ghost use Rattle.class_ways.specs.Found.{has_arc, with_arc};

use std::alloc::Global;
use std::marker::Model;
use taxi_base::{Arc, Memory};

/// Arcs with numbers below a limit, each once, in the order in which they were found.
#[derive(Drop)]
pub(crate) struct Found {
    // By number of arc: whether it was found.
    marks: Vec<bool>,
    order: Vec<Arc>,
}

impl Model for Found {
    ghost use Rattle.std.specs.Prelude.{length};
    ghost use Rattle.class_ways.specs.Found.{FoundArcs, AreMarked};

    ghost Value = { FoundArcs };

    ghost view = { λ f. record { limit = length f.marks.items; arcs = f.order.items } };

    ghost invariant = { λ f. AreMarked f.marks.items f.order.items };
}

impl Found {
    /// No arc yet.
    pub(crate) fn new(alloc: Global, limit: usize) -> Result<Found, Memory>
        ensures { IfOk result (λ found. found ≡ record { limit = limit; arcs = [] }) }
    {
        let marks = Vec::from_elem(alloc, false, limit)?;
        let order = Vec::new(alloc);
        Ok(Found { marks, order })
    }

    /// All numbers are below it, so there are no more arcs than that.
    pub(crate) fn limit(&self) -> usize
        ensures limit { result ≡ self.now.limit }
        ensures few { length self.now.arcs ≤ self.now.limit }
    {
        self.marks.len()
    }

    /// The arc that was found at this place in the order; none where fewer were found.
    pub(crate) fn get(&self, at: usize) -> Option<Arc>
        ensures { result ≡ slice_get self.now.arcs at }
    {
        self.order.get(at).copied()
    }

    /// Whether an arc was found.
    pub(crate) fn has(&self, arc: Arc) -> bool
        ensures { result ≡ has_arc self.now.arcs arc }
    {
        match self.marks.get(arc.0 as usize) {
            Some(mark) => *mark,
            None => false,
        }
    }

    /// Finds one more arc, if it was not found before.
    pub(crate) fn add(&mut self, arc: Arc) -> Result<(), Memory>
        requires { arc.0 < self.old.limit }
        ensures { OnOk result (self.new ≡ with_arc self.old arc) }
    {
        if !self.has(arc) {
            self.order.push(arc)?;
            self.marks[arc.0 as usize] = true;
        }
        Ok(())
    }
}
