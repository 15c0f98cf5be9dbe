//! How many steps touch each segment's list, counted anew in each round.
ghost use Rattle.std.specs.Prelude.{◌≡◌, ◌+◌, ◌^◌, ◌<◌, [], ◌∷◌, length, IfOk};
ghost use Rattle.taxi_base.specs.declared.numbers.Segment.{Segment as SegmentNumber};
ghost use Rattle.window_store.specs.Counts.{count_of, times_in, IsCounted};

use std::alloc::Global;
use std::marker::Model;
use taxi_base::{Memory, Segment};

/// A count, and the round in which it was made.
#[derive(Clone, Copy)]
pub(crate) struct Counted {
    round: usize,
    count: usize,
}

/// A count for each segment. One of an earlier round stands for none, so that a new round begins at once.
#[derive(Drop)]
pub(crate) struct StepCounts {
    counted: Vec<Counted>,
    round: usize,
}

impl Model for StepCounts {
    ghost use Rattle.std.specs.Prelude.{ℕ, ◌≤◌, List, All};
    ghost use Rattle.window_store.specs.Counts.{counts_in};

    ghost Value = { List ℕ };

    ghost view = { λ c. counts_in c.round c.counted.items };

    ghost invariant = { λ c. All (λ one. one.round ≤ c.round) c.counted.items };
}

impl StepCounts {
    /// Nothing is counted for so many segments.
    pub(crate) fn new(alloc: Global, segments: usize) -> Result<StepCounts, Memory>
        ensures { IfOk result (λ c. length c ≡ segments) }
    {
        let counted = Vec::from_elem(alloc, Counted { round: 0, count: 0 }, segments)?;
        Ok(StepCounts { counted, round: 0 })
    }

    /// Begins a round: nothing is counted.
    pub(crate) fn clear(&mut self)
        ensures as_many { length self.new ≡ length self.old }
        ensures none { (s : SegmentNumber) → count_of self.new s ≡ 0 }
    {
        match self.round.checked_add(1) {
            Some(round) => self.round = round,
            None => self.clear_each(),
        }
    }

    // The rounds begin anew.
    fn clear_each(&mut self)
        ensures as_many { length self.new ≡ length self.old }
        ensures none { (s : SegmentNumber) → count_of self.new s ≡ 0 }
    {
        self.round = 0;
        self.counted.fill(Counted { round: 0, count: 0 });
    }

    /// Counts one more for a segment, and says how many there are now.
    pub(crate) fn count(&mut self, segment: Segment) -> usize
        requires exists { segment.0 < length self.old }
        requires few { count_of self.old segment + 1 < 2 ^ 64 }
        ensures more { IsCounted (times_in (segment ∷ [])) self.old self.new }
        ensures now { result ≡ count_of self.new segment }
    {
        let round = self.round;
        let one = &mut self.counted[segment.0 as usize];
        let count = if one.round == round { one.count + 1 } else { 1 };
        *one = Counted { round, count };
        count
    }
}
