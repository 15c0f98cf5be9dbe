//! What is held of a segment, asked by seconds.
ghost use Rattle.std.specs.Prelude.{◌<◌, ◌≤◌, List, IsTrue};
ghost use Rattle.taxi_base.specs.declared.rows.Span.{Span};
ghost use Rattle.taxi_base.specs.Windows.{Hold, covers};
ghost use Rattle.window_store.specs.Held.{IsFirstHeld, IsHeldUntil};
ghost use Rattle.window_store.specs.Conflicting.{spans_in_conflict, ReachesUpTo};

use conflict_sets::Conflicts;
use taxi_base::{Segment, Time};

/// Spans for which a segment is held.
pub(crate) trait HeldSeconds {
    /// The spans, in any order.
    ghost spans: { Self → List Span };

    /// The first second that is held, from `from` on and before `until`; `until` where none is.
    fn first_held(&self, from: Time, until: Time) -> Time
        requires { from < until }
        ensures { IsFirstHeld (spans self.now) from until result };

    /// Up to when the segment is held from a second on, at least.
    fn held_until(&self, from: Time) -> Time
        requires { IsTrue (covers (spans self.now) from) }
        ensures { IsHeldUntil (spans self.now) from result };
}

/// Holds of all segments, asked for those in conflict with one.
pub trait OtherHolds {
    /// The holds, in any order.
    ghost holds: { Self → List Hold };

    /// The first second that a hold in conflict has, from `from` on and before `until`; `until` where none has one.
    fn first_held(&self, conflicts: &Conflicts, segment: Segment, from: Time, until: Time) -> Time
        requires exists { segment.0 < conflicts.now.segments }
        requires order { from ≤ until }
        ensures { IsFirstHeld (spans_in_conflict conflicts.now.sets segment (holds self.now)) from until result };

    /// Up to when holds in conflict have each second from one on, at least. Where one of them has that second, it is a later one.
    fn held_until(&self, conflicts: &Conflicts, segment: Segment, from: Time) -> Time
        requires { segment.0 < conflicts.now.segments }
        ensures { ReachesUpTo (spans_in_conflict conflicts.now.sets segment (holds self.now)) from result };
}
