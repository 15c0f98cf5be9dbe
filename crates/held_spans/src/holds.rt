//! What segments are held for, to be found by the segment.
ghost use Rattle.std.specs.Prelude.{◌≡◌, ℕ, List, IsTrue};
ghost use Rattle.taxi_base.specs.Windows.{Hold, covers, span_has};
ghost use Rattle.held_spans.specs.Holds.{held_at};

use taxi_base::{Segment, Span};

/// Holds, to be found by their segment.
pub trait HoldsOf {
    /// All holds.
    ghost held: { Self → List Hold };

    /// Spans that have just the seconds for which a segment itself is held, in any order.
    fn spans(&self, segment: Segment) -> &[Span]
        ensures { (t : ℕ) → covers result.now t ≡ held_at (held self.now) segment t };

    /// Spans that have, of the seconds of one span, just those for which a segment itself is held.
    fn spans_in(&self, segment: Segment, span: Span) -> &[Span]
        ensures { (t : ℕ) → IsTrue (span_has span t) → covers result.now t ≡ held_at (held self.now) segment t };
}
