//! What standing for spans and for holds means, as laws that are proved of it. The functions do nothing: their clauses are
//! the laws.
ghost use Rattle.std.specs.Prelude.{ℕ, ◌≡◌, ◌+◌, ◌≤◌, List, length};
ghost use Rattle.std.specs.List.{list_any};
ghost use Rattle.taxi_base.specs.declared.numbers.Segment.{Segment};
ghost use Rattle.taxi_base.specs.declared.rows.Span.{Span};
ghost use Rattle.taxi_base.specs.Windows.{Hold, blocks, covers, is_free, AreWindows};
ghost use Rattle.window_store.specs.Spans.{Listed, is_unheld, StandsForSpans};
ghost use Rattle.window_store.specs.Store.{Store};
ghost use Rattle.window_store.specs.Stands.{StandsFor, conflicting};

/// Spans leave at most one window more than there are spans.
pub fn windows_are_few()
    ensures { (horizon : ℕ) (spans ws : List Span) → AreWindows (is_unheld horizon spans) ws → length ws ≤ 1 + length spans }
{}

/// Windows that stand for spans are at most one more than the number says, and they stand for each list of as many spans
/// with the same seconds.
pub fn windows_stand_for_their_spans()
    ensures fewer { (horizon : ℕ) (spans : List Span) (l : Listed) → StandsForSpans horizon spans l → length l.intervals.windows ≤ 1 + l.held }
    ensures same { (horizon : ℕ) (spans others : List Span) (l : Listed) → ((t : ℕ) → covers spans t ≡ covers others t) → length spans ≡ length others → StandsForSpans horizon spans l → StandsForSpans horizon others l }
{}

/// Holds leave a segment at most one window more than there are holds in conflict with it.
pub fn lists_are_short()
    ensures { (sets : List (List Segment)) (horizon : ℕ) (holds : List Hold) (segment : Segment) (ws : List Span) → AreWindows (is_free sets horizon holds segment) ws → length ws ≤ 1 + conflicting sets segment holds }
{}

/// A store that stands for holds stands for any others that block the same seconds, and of which as many conflict with
/// each segment.
pub fn stores_stand_for_holds_in_any_order()
    ensures { (sets : List (List Segment)) (horizon : ℕ) (holds others : List Hold) (store : Store) → ((segment : Segment) (t : ℕ) → list_any (blocks sets segment t) holds ≡ list_any (blocks sets segment t) others) → ((segment : Segment) → conflicting sets segment holds ≡ conflicting sets segment others) → StandsFor sets horizon holds store → StandsFor sets horizon others store }
{}
