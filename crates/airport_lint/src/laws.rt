//! What advice says of searches and of conflicts, and that an airport has one. The functions do nothing: their clauses are the laws.
ghost use Rattle.std.specs.Prelude.{◌≡◌, ◌↔◌, ◌⊎◌, ℕ, List, [], Contains, IsTrue};
ghost use Rattle.taxi_base.specs.declared.answers.Request.TheVariants.{Arrival, Departure};
ghost use Rattle.taxi_base.specs.declared.numbers.Node.{Node};
ghost use Rattle.taxi_base.specs.declared.numbers.Segment.{Segment};
ghost use Rattle.taxi_base.specs.declared.rows.Kind.TheVariants.{Runway, Stand};
ghost use Rattle.taxi_base.specs.declared.rows.Step.{Step};
ghost use Rattle.taxi_base.specs.Airport.{Airport, layout_of, conflict, segment_of};
ghost use Rattle.taxi_base.specs.Walks.{Conditions, IsFeasibleStep, IsFeasibleWalk, LeavesNode, ReachesNode, Meets};
ghost use Rattle.class_ways.specs.Ways.{is_of};
ghost use Rattle.airport_lint.specs.declared.advice.Advice.{Advice as Told};
ghost use Rattle.airport_lint.specs.declared.advice.Advice.TheVariants.{SegmentNoSeconds, NodeUnused, DeadEnd};
ghost use Rattle.airport_lint.specs.Advice.{IsSo, without_idle};
ghost use Rattle.airport_lint.specs.Bars.{BarsArrival, BarsDeparture};
ghost use Rattle.airport_lint.specs.Sets.{marked, needed_marks};
ghost use Rattle.airport_lint.specs.Text.{IsAdviceText};

/// No walk does what an arrival asks for where its class has no seconds, or `no-arrival` is said of the class or of one of its nodes.
/// For a departure it is so with `no-departure`. It holds whoever else holds what.
pub fn advice_bars_walks()
    ensures arrivals { (c : Conditions) (from to : Node) (time hold : ℕ) (steps : List Step) (advice : Told) → IsTrue (is_of Runway c.airport from) → IsTrue (is_of Stand c.airport to) →
        IsSo c.airport advice → BarsArrival c.class from to advice → Meets c (Arrival from to time hold) steps → ⊥ }
    ensures departures { (c : Conditions) (from to : Node) (time queue : ℕ) (steps : List Step) (advice : Told) → IsTrue (is_of Stand c.airport from) → IsTrue (is_of Runway c.airport to) →
        IsSo c.airport advice → BarsDeparture c.class from to advice → Meets c (Departure from to time queue) steps → ⊥ }
{}

/// No flight can take a segment on which no class has seconds.
pub fn no_flight_where_no_seconds()
    ensures { (c : Conditions) (step : Step) → IsSo c.airport (SegmentNoSeconds (segment_of step.arc)) → IsFeasibleStep c step → ⊥ }
{}

/// No walk that does what an arrival or a departure asks for has a step by an arc that is a dead end.
pub fn walks_pass_no_dead_end()
    ensures arrivals { (c : Conditions) (from to : Node) (time hold : ℕ) (steps : List Step) (step : Step) → IsTrue (is_of Stand c.airport to) →
        Meets c (Arrival from to time hold) steps → Contains steps step → IsSo c.airport (DeadEnd step.arc) → ⊥ }
    ensures departures { (c : Conditions) (from to : Node) (time queue : ℕ) (steps : List Step) (step : Step) → IsTrue (is_of Runway c.airport to) →
        Meets c (Departure from to time queue) steps → Contains steps step → IsSo c.airport (DeadEnd step.arc) → ⊥ }
{}

/// Nor has it a step that leaves or reaches a node that is unused.
pub fn walks_pass_no_unused_node()
    ensures arrivals { (c : Conditions) (from to node : Node) (time hold : ℕ) (steps : List Step) (step : Step) → IsTrue (is_of Runway c.airport from) →
        Meets c (Arrival from to time hold) steps → Contains steps step → LeavesNode (layout_of c.airport) node step ⊎ ReachesNode (layout_of c.airport) node step → IsSo c.airport (NodeUnused node) → ⊥ }
    ensures departures { (c : Conditions) (from to node : Node) (time queue : ℕ) (steps : List Step) (step : Step) → IsTrue (is_of Stand c.airport from) →
        Meets c (Departure from to time queue) steps → Contains steps step → LeavesNode (layout_of c.airport) node step ⊎ ReachesNode (layout_of c.airport) node step → IsSo c.airport (NodeUnused node) → ⊥ }
{}

/// Without the forbidden turns that are idle the same walks are feasible.
pub fn idle_turns_make_no_difference()
    ensures { (c : Conditions) (steps : List Step) → IsFeasibleWalk c steps ↔ IsFeasibleWalk (record c { airport = without_idle c.airport }) steps }
{}

/// By the needed sets alone the same segments conflict.
pub fn needless_sets_make_no_difference()
    ensures { (sets : List (List Segment)) (s t : Segment) → conflict (marked sets (needed_marks [] sets)) s t ≡ conflict sets s t }
{}

/// An airport has one advice. So its text depends on the airport alone.
pub fn advice_is_one()
    ensures { (airport : Airport) (text other : List ℕ) → IsAdviceText airport text → IsAdviceText airport other → text ≡ other }
{}
