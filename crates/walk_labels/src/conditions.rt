//! Laws on the conditions under which walks are searched.
ghost use Rattle.std.specs.Prelude.{◌≡◌, ℕ, ◌<◌, List, [], length, slice_index_or};
ghost use Rattle.taxi_base.specs.declared.numbers.Segment.{Segment};
ghost use Rattle.taxi_base.specs.declared.numbers.Class.{Class};
ghost use Rattle.taxi_base.specs.declared.rows.Span.{Span};
ghost use Rattle.taxi_base.specs.Airport.{Airport, IsWellFormed};
ghost use Rattle.taxi_base.specs.Windows.{Hold, is_free, AreWindows};
ghost use Rattle.taxi_base.specs.Walks.{conditions_among, conditions_in_windows};
ghost use Rattle.walk_labels.specs.Places.{AreFit};
ghost use Rattle.walk_labels.specs.PlacesInWindows.{AreWindowLists};

/// At a well-formed airport the conditions are fit for a search, among holds and in windows that end by the horizon.
pub fn conditions_are_fit()
    ensures among { (airport : Airport) (class : Class) (holds : List Hold) → IsWellFormed airport → AreFit (conditions_among airport class holds) }
    ensures in_windows { (airport : Airport) (class : Class) (clearance : ℕ) (windows : List (List Span)) → IsWellFormed airport → AreWindowLists airport windows → AreFit (conditions_in_windows airport class clearance windows) }
{}

/// Where the windows are those that holds leave, they are lists apart that end by the horizon.
pub fn windows_of_holds_are_lists()
    ensures { (airport : Airport) (holds : List Hold) (windows : List (List Span)) → length windows ≡ length airport.segments
        → ((s : Segment) → s.0 < length windows → AreWindows (is_free airport.conflicts airport.horizon holds s) (slice_index_or windows s.0 [])) → AreWindowLists airport windows }
{}
