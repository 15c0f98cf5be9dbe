//! What the definitions mean, as laws that are proved of them. The functions do nothing: their clauses are the laws.
ghost use Rattle.std.specs.Prelude.{◌≡◌, ◌↔◌, ◌<◌, ◌≤◌, ℕ, Bool, List, Option, length, slice_index_or, All, Contains, IsTrue, IsFalse, Some, None, [], ◌∷◌};
ghost use Rattle.taxi_base.specs.declared.answers.Chosen.{Chosen};
ghost use Rattle.taxi_base.specs.declared.answers.Chosen.TheVariants.{Route};
ghost use Rattle.taxi_base.specs.declared.answers.Flight.{Flight};
ghost use Rattle.taxi_base.specs.declared.answers.Found.{Found};
ghost use Rattle.taxi_base.specs.declared.answers.Party.{Party};
ghost use Rattle.taxi_base.specs.declared.answers.Request.{Request};
ghost use Rattle.taxi_base.specs.declared.numbers.Class.{Class};
ghost use Rattle.taxi_base.specs.declared.numbers.Node.{Node};
ghost use Rattle.taxi_base.specs.declared.numbers.Segment.{Segment};
ghost use Rattle.taxi_base.specs.declared.rows.HeldRow.{HeldRow};
ghost use Rattle.taxi_base.specs.declared.rows.LabelRow.{LabelRow};
ghost use Rattle.taxi_base.specs.declared.rows.Span.{Span};
ghost use Rattle.taxi_base.specs.declared.rows.Step.{Step};
ghost use Rattle.taxi_base.specs.Airport.{Airport, IsWellFormed, arc_exists, layout_of, clearance_of};
ghost use Rattle.taxi_base.specs.Windows.{Hold, is_free, span_has, IsPart, AllFree, IsWindow, AreWindows, windows_before};
ghost use Rattle.taxi_base.specs.Walks.{Conditions, conditions_among, conditions_in_windows, IsBounded, IsRoute, EndsEarliest, BeginsLatest, LeavesNode, LeavesWithin, ReachesWithin, Resumes, IsInside, last_of, AreJoined, IsFeasibleWalk, Meets};
ghost use Rattle.taxi_base.specs.State.{State, IsInOrder, no_holder, holder_count, has_holder, without, with_flight, with_party, with_route, party_hold, conditions_of, IsClashFree, IsFeasibleHold, IsFeasibleState, IsSound, IsFrozenWalk};
ghost use Rattle.taxi_base.specs.Faults.{holder_at, IsHolderAt, IsFirstHolder, conditions_in, route_fault, hold_fault};
ghost use Rattle.taxi_base.specs.Labels.{IsPickedArrival, IsPickedDeparture, IsTable, IsExitBefore, IsEntryAfter, AnswersArrival, AnswersDeparture, AnswersDepartureAfter, found_after};
ghost use Rattle.taxi_base.specs.Choices.{ReachesOneOf, ReachesOneOfWithin, AnswersArrivalChoice, AnswersDepartureChoice};
ghost use Rattle.taxi_base.specs.Reports.{AreHeldRows};
ghost use Rattle.taxi_base.specs.Again.{retargeted, IsTarget, MayGoAgain, AnswersAgain, IsBestAgain};

/// The free seconds determine the list of windows, and it has each window and nothing else. Where nothing is free from a
/// horizon on, there is such a list.
pub fn windows_are_unique_and_complete()
    ensures made { (free : ℕ → Bool) (horizon : ℕ)
        → ((t : ℕ) → horizon ≤ t → IsFalse (free t)) → AreWindows free (windows_before free horizon) }
    ensures unique { (free : ℕ → Bool) (ws vs : List Span) → AreWindows free ws → AreWindows free vs → ws ≡ vs }
    ensures sound { (free : ℕ → Bool) (ws : List Span) (w : Span) → AreWindows free ws → Contains ws w → IsWindow free w }
    ensures complete { (free : ℕ → Bool) (ws : List Span) (w : Span) → AreWindows free ws → IsWindow free w → Contains ws w }
{}

/// Where nothing is free from some second on, an interval of free seconds lies in exactly one window.
pub fn free_seconds_lie_in_one_window()
    ensures one { (free : ℕ → Bool) (stop : ℕ)
        → ((t : ℕ) → stop ≤ t → IsFalse (free t)) → (span : Span) → span.from < span.until → AllFree free span
        → (w : Span) × IsWindow free w × IsPart span w }
    ensures only { (free : ℕ → Bool) (v w : Span) (t : ℕ)
        → IsWindow free v → IsWindow free w → IsTrue (span_has v t) → IsTrue (span_has w t) → v ≡ w }
{}

/// Where each segment's windows are those that holds leave, and the clearance is the class's, the conditions in the windows are
/// those among the holds. Among holds no second from the horizon on is free.
pub fn windows_stand_for_holds()
    ensures same { (airport : Airport) (class : Class) (holds : List Hold) (windows : List (List Span))
        → length windows ≡ length airport.segments
        → ((s : Segment) → s.0 < length windows → AreWindows (is_free airport.conflicts airport.horizon holds s) (slice_index_or windows s.0 []))
        → conditions_in_windows airport class (clearance_of airport class) windows ≡ conditions_among airport class holds }
    ensures bounded { (airport : Airport) (class : Class) (holds : List Hold) → IsBounded (conditions_among airport class holds) }
{}

/// A step that takes time lies inside a window just where it enters and leaves within the window's seconds for it, whatever
/// the clearance.
pub fn steps_lie_inside_by_enter_and_leave()
    ensures { (c : Conditions) (w : Span) (step : Step)
        → step.enter < step.leave → step.leave ≤ c.airport.horizon → w.until ≤ c.airport.horizon
        → IsInside c w step ↔ ((w.from ≤ step.enter) × (step.leave ≤ last_of c w)) }
{}

/// A state of flights and parties each feasible among the others is clash-free, and stays feasible and sound when one is left
/// out. The state without holders is sound.
pub fn feasible_holders_do_not_clash()
    ensures clash_free { (airport : Airport) (state : State) → IsFeasibleState airport state → IsClashFree airport state }
    ensures feasible { (airport : Airport) (name : List ℕ) (state : State)
        → IsFeasibleState airport state → IsFeasibleState airport (without name state) }
    ensures sound { (airport : Airport) (name : List ℕ) (state : State) → IsSound airport state → IsSound airport (without name state) }
    ensures empty { (airport : Airport) → IsSound airport no_holder }
{}

/// A sound state that has room stays sound when a flight of a new name is put in that has what it asked for among all
/// holders, or a party of a new name where its segment may be shut among them; and when a flight gets another route that does
/// what it asks for among the others.
pub fn sound_states_stay_sound()
    ensures flight { (airport : Airport) (flight : Flight) (state : State)
        → IsSound airport state → holder_count state < 4096 → IsFalse (has_holder flight.name state)
        → Meets (conditions_in airport flight.class state) flight.request flight.steps → IsSound airport (with_flight flight state) }
    ensures party { (airport : Airport) (party : Party) (state : State)
        → IsSound airport state → holder_count state < 4096 → IsFalse (has_holder party.name state)
        → IsFeasibleHold airport state (party_hold party) → IsSound airport (with_party party state) }
    ensures route { (airport : Airport) (flight : Flight) (state : State) (request : Request) (steps : List Step)
        → IsSound airport state → Contains state.flights flight → Meets (conditions_of airport state flight) request steps
        → IsSound airport (with_route flight request steps state) }
{}

/// A route given by hand has no fault just where it is a feasible walk; a span has none just where a segment of the airport
/// may be shut for it.
pub fn routes_without_fault_are_feasible()
    ensures routes { (airport : Airport) (class : Class) (state : State) (steps : List Step)
        → 0 < length steps → All (λ s. IsTrue (arc_exists (layout_of airport) s.arc)) steps → AreJoined steps
        → (route_fault airport class state steps ≡ None) ↔ IsFeasibleWalk (conditions_in airport class state) steps }
    ensures holds { (airport : Airport) (state : State) (hold : Hold)
        → hold.segment.0 < length airport.segments → (hold_fault airport state hold ≡ None) ↔ IsFeasibleHold airport state hold }
{}

/// A flight under way is answered by the best of the walks that it may still take, or that there is none. Where it may ask
/// again, its old route is one of the walks to its own node. Each of the walks does what it asked for, with the new node to
/// reach.
pub fn flights_under_way_go_on()
    ensures best { (c : Conditions) (old : List Step) (time : ℕ) (target : Node) (request : Request) (found : Found)
        → IsFeasibleWalk c old → AnswersAgain c old time target request found → IsBestAgain c old time target request found }
    ensures old { (c : Conditions) (old : List Step) (time : ℕ) (target : Node) (request : Request)
        → Meets c request old → MayGoAgain time request old → IsTarget request target → IsFrozenWalk c old time target request old }
    ensures meets { (c : Conditions) (old : List Step) (time : ℕ) (target : Node) (request : Request) (steps : List Step)
        → Meets c request old → IsFrozenWalk c old time target request steps → Meets c (retargeted request target) steps }
{}

/// Who is told to hold a segment at a second is the first by name of all that hold a conflicting one then, and none is told
/// just where none does.
pub fn the_first_holder_is_told()
    ensures told { (airport : Airport) (state : State) (s : Segment) (t : ℕ) (name : List ℕ)
        → IsInOrder state → (holder_at airport state s t ≡ Some name) ↔ IsFirstHolder airport state s t name }
    ensures none { (airport : Airport) (state : State) (s : Segment) (t : ℕ)
        → IsInOrder state → (holder_at airport state s t ≡ None) ↔ ((name : List ℕ) → IsHolderAt airport state s t name → ⊥) }
{}

/// Of the walks that leave a node, of those that go on with a step begun, and of those that reach a node, one route is picked.
pub fn picked_routes_are_one()
    ensures leaving { (c : Conditions) (from to : Node) (earliest latest : ℕ) (steps others : List Step)
        → IsWellFormed c.airport → IsBounded c → IsPickedArrival c (LeavesWithin c from earliest latest) to steps
        → IsPickedArrival c (LeavesWithin c from earliest latest) to others → steps ≡ others }
    ensures resumed { (c : Conditions) (begun : Step) (exit_from : ℕ) (to : Node) (steps others : List Step)
        → IsPickedArrival c (Resumes begun exit_from) to steps → IsPickedArrival c (Resumes begun exit_from) to others → steps ≡ others }
    ensures reaching { (c : Conditions) (from to : Node) (earliest latest : ℕ) (steps others : List Step)
        → IsPickedDeparture c (ReachesWithin c to earliest latest) from steps
        → IsPickedDeparture c (ReachesWithin c to earliest latest) from others → steps ≡ others }
{}

/// Their labels, all or those short of a bound, have one table.
pub fn tables_are_one()
    ensures leaving { (c : Conditions) (from : Node) (earliest latest : ℕ) (bound : Option ℕ) (rows others : List LabelRow)
        → IsTable (IsExitBefore c (LeavesWithin c from earliest latest) bound) rows
        → IsTable (IsExitBefore c (LeavesWithin c from earliest latest) bound) others → rows ≡ others }
    ensures resumed { (c : Conditions) (begun : Step) (exit_from : ℕ) (bound : Option ℕ) (rows others : List LabelRow)
        → IsTable (IsExitBefore c (Resumes begun exit_from) bound) rows → IsTable (IsExitBefore c (Resumes begun exit_from) bound) others
        → rows ≡ others }
    ensures reaching { (c : Conditions) (to : Node) (earliest latest : ℕ) (bound : Option ℕ) (rows others : List LabelRow)
        → IsTable (IsEntryAfter c (ReachesWithin c to earliest latest) bound) rows
        → IsTable (IsEntryAfter c (ReachesWithin c to earliest latest) bound) others → rows ≡ others }
{}

/// So what is asked has one answer.
pub fn answers_are_one()
    ensures leaving { (c : Conditions) (from to : Node) (earliest latest : ℕ) (found others : Found)
        → IsWellFormed c.airport → IsBounded c → AnswersArrival c (LeavesWithin c from earliest latest) to found
        → AnswersArrival c (LeavesWithin c from earliest latest) to others → found ≡ others }
    ensures resumed { (c : Conditions) (begun : Step) (exit_from : ℕ) (to : Node) (found others : Found)
        → AnswersArrival c (Resumes begun exit_from) to found → AnswersArrival c (Resumes begun exit_from) to others → found ≡ others }
    ensures reaching { (c : Conditions) (from to : Node) (earliest latest : ℕ) (found others : Found)
        → AnswersDeparture c from (ReachesWithin c to earliest latest) found
        → AnswersDeparture c from (ReachesWithin c to earliest latest) others → found ≡ others }
    ensures after { (c : Conditions) (from to : Node) (earliest latest bound : ℕ) (found others : Found)
        → AnswersDepartureAfter c from (ReachesWithin c to earliest latest) bound found
        → AnswersDepartureAfter c from (ReachesWithin c to earliest latest) bound others → found ≡ others }
{}

/// The chosen route is the best of the walks to any of the nodes.
pub fn choices_are_best()
    ensures arrivals { (c : Conditions) (from : Node) (nodes : List Node) (earliest latest : ℕ) (to : Node) (steps : List Step) (labels : List LabelRow)
        → AnswersArrivalChoice c (LeavesWithin c from earliest latest) nodes (Route to steps labels)
        → EndsEarliest (IsRoute c (LeavesWithin c from earliest latest) (ReachesOneOf (layout_of c.airport) nodes)) steps }
    ensures departures { (c : Conditions) (from : Node) (nodes : List Node) (earliest latest : ℕ) (to : Node) (steps : List Step) (labels : List LabelRow)
        → AnswersDepartureChoice c from nodes earliest latest (Route to steps labels)
        → BeginsLatest (IsRoute c (LeavesNode (layout_of c.airport) from) (ReachesOneOfWithin (layout_of c.airport) nodes earliest latest)) steps }
{}

/// And so has a choice of nodes. In an airport that keeps the rules names differ, so one node is chosen.
pub fn choices_are_one()
    ensures arrivals { (c : Conditions) (from : Node) (nodes : List Node) (earliest latest : ℕ) (chosen others : Chosen)
        → IsWellFormed c.airport → IsBounded c → All (λ n. n.0 < length c.airport.nodes) nodes
        → AnswersArrivalChoice c (LeavesWithin c from earliest latest) nodes chosen
        → AnswersArrivalChoice c (LeavesWithin c from earliest latest) nodes others → chosen ≡ others }
    ensures departures { (c : Conditions) (from : Node) (nodes : List Node) (earliest latest : ℕ) (chosen others : Chosen)
        → IsWellFormed c.airport → All (λ n. n.0 < length c.airport.nodes) nodes
        → AnswersDepartureChoice c from nodes earliest latest chosen → AnswersDepartureChoice c from nodes earliest latest others
        → chosen ≡ others }
{}

/// What answers a departure gives the answer where only walks count that begin after a second: the route where it does, and
/// else that there is none, with the labels after the second.
pub fn departures_are_answered_after_a_second()
    ensures { (c : Conditions) (from to : Node) (earliest latest bound : ℕ) (found : Found)
        → AnswersDeparture c from (ReachesWithin c to earliest latest) found
        → AnswersDepartureAfter c from (ReachesWithin c to earliest latest) bound (found_after bound found) }
{}

/// What holds a segment is told in one way.
pub fn held_rows_are_one()
    ensures { (airport : Airport) (state : State) (segment : Segment) (rows others : List HeldRow)
        → AreHeldRows airport state segment rows → AreHeldRows airport state segment others → rows ≡ others }
{}
