//! Places are cells, and walks over cells are the feasible walks.
ghost use Rattle.std.specs.Prelude.{◌≡◌, ℕ, Bool, ◌<◌, ◌↔◌, List, length, Option, Some, IsTrue, slice_index_or};
ghost use Rattle.taxi_base.specs.declared.numbers.Node.{Node};
ghost use Rattle.taxi_base.specs.declared.numbers.Class.{Class};
ghost use Rattle.taxi_base.specs.declared.rows.Step.{Step};
ghost use Rattle.taxi_base.specs.declared.rows.Span.{Span};
ghost use Rattle.taxi_base.specs.Airport.{Airport, layout_of};
ghost use Rattle.taxi_base.specs.Walks.{Conditions, conditions_in_windows, IsFeasibleWalk, IsRoute, AtFirst, AtLast, LeavesNode, IsEarliestEnd, IsLatestBegin};
ghost use Rattle.taxi_base.specs.Labels.{IsExitLabel, IsEntryLabel, IsTable, IsExitBefore, IsEntryAfter};
ghost use Rattle.label_core.specs.Walks.{Network, Start, IsWalk, IsEarliestExit};
ghost use Rattle.label_core.specs.BackwardWalks.{Finish, IsWalkTo, IsLatestEntry};
ghost use Rattle.label_core.specs.Tables.{IsBelow};
ghost use Rattle.label_core.specs.BackwardTables.{IsAbove};
ghost use Rattle.label_core.specs.Best.{IsBestEnd, HasNoWalk};
ghost use Rattle.label_core.specs.BackwardBest.{IsBestBegin, HasNoWalkFrom};
ghost use Rattle.walk_labels.specs.Places.{AreFit, Place, IsPlace, AreCells, IsOrdered, ArePlaces, place_at, numbered, label_at};
ghost use Rattle.walk_labels.specs.PlacesInWindows.{AreWindowLists, cells_in, can_use};
ghost use Rattle.taxi_base.specs.Choices.{ReachesOneOf, ReachesOneOfWithin};
ghost use Rattle.walk_labels.specs.Requests.{Walk, steps_at, Beginning, BeginsBy, AreStarts, AreFinishes, AreTargets, AreSources, starts_by, finishes_at, targets_at, sources_at_node};
ghost use Rattle.walk_labels.specs.Tables.{rows_of};

/// Numbers are cells in order where those of a test are all places in order. Where the windows are given, the cells are
/// listed arc by arc, and those of the arcs that the class can use are its places.
pub fn places_are_cells()
    ensures numbered { (c : Conditions) (usable : ℕ → Bool) (cells : List Place) → ArePlaces c usable cells → AreCells c (numbered c usable cells) (place_at cells) }
    ensures ordered { (c : Conditions) (usable : ℕ → Bool) (cells : List Place) → ArePlaces c usable cells → IsOrdered c (place_at cells) (λ j k. j < k) }
    ensures listed { (airport : Airport) (class : Class) (clearance : ℕ) (windows : List (List Span)) → AreWindowLists airport windows
        → ArePlaces (conditions_in_windows airport class clearance windows) (λ k. can_use airport class (place_at (cells_in windows) k).arc) (cells_in windows) }
{}

/// The starts and finishes of requests say how walks over cells begin and end, and the targets and sources where.
pub fn starts_and_finishes_are_those_of_requests<C>()
    ensures starts { (c : Conditions) (net : Network C) (place : C → Place) (inside : C → Bool) → ((x : C) → IsTrue (inside x) ↔ IsPlace c (place x)) → (b : Beginning)
        → AreStarts c net place (BeginsBy (layout_of c.airport) b) (starts_by (layout_of c.airport) inside place b) }
    ensures finishes { (c : Conditions) (net : Network C) (place : C → Place) (inside : C → Bool) → ((x : C) → IsTrue (inside x) ↔ IsPlace c (place x)) → (nodes : List Node) (earliest latest : ℕ)
        → AreFinishes c net place (ReachesOneOfWithin (layout_of c.airport) nodes earliest latest) (finishes_at (layout_of c.airport) inside place nodes earliest latest) }
    ensures targets { (c : Conditions) (place : C → Place) (nodes : List Node) → AreTargets c place nodes (targets_at (layout_of c.airport) place nodes) }
    ensures sources { (c : Conditions) (place : C → Place) (node : Node) → AreSources c place node (sources_at_node (layout_of c.airport) place node) }
{}

/// Each feasible walk that begins as is asked is a walk over cells with the same enters and leaves, and each walk over
/// cells is a feasible walk that begins so. The same for walks that end as is asked.
pub fn feasible_walks_are_walks_over_cells<C>()
    ensures there { (c : Conditions) → AreFit c → (net : Network C) (place : C → Place) → AreCells c net place
        → (b : Beginning) (starts : C → Option Start) → AreStarts c net place (BeginsBy (layout_of c.airport) b) starts
        → (steps : List Step) → IsFeasibleWalk c steps → AtFirst (BeginsBy (layout_of c.airport) b) steps → (walk : Walk C) × IsWalk net starts walk × (steps_at place walk ≡ steps) }
    ensures back { (c : Conditions) → AreFit c → (net : Network C) (place : C → Place) → AreCells c net place
        → (b : Beginning) (starts : C → Option Start) → AreStarts c net place (BeginsBy (layout_of c.airport) b) starts
        → (walk : Walk C) → IsWalk net starts walk → IsFeasibleWalk c (steps_at place walk) × AtFirst (BeginsBy (layout_of c.airport) b) (steps_at place walk) }
    ensures ending_there { (c : Conditions) → AreFit c → (net : Network C) (place : C → Place) → AreCells c net place
        → (nodes : List Node) (earliest latest : ℕ) (finishes : C → Option Finish) → AreFinishes c net place (ReachesOneOfWithin (layout_of c.airport) nodes earliest latest) finishes
        → (steps : List Step) → IsFeasibleWalk c steps → AtLast (ReachesOneOfWithin (layout_of c.airport) nodes earliest latest) steps
        → (walk : Walk C) × IsWalkTo net finishes walk × (steps_at place walk ≡ steps) }
    ensures ending_back { (c : Conditions) → AreFit c → (net : Network C) (place : C → Place) → AreCells c net place
        → (nodes : List Node) (earliest latest : ℕ) (finishes : C → Option Finish) → AreFinishes c net place (ReachesOneOfWithin (layout_of c.airport) nodes earliest latest) finishes
        → (walk : Walk C) → IsWalkTo net finishes walk → IsFeasibleWalk c (steps_at place walk) × AtLast (ReachesOneOfWithin (layout_of c.airport) nodes earliest latest) (steps_at place walk) }
{}

/// The earliest exit of a cell is the value of the exit label of its place, and the latest entry that of its entry label.
pub fn labels_are_values_of_cells<C>()
    ensures exits { (c : Conditions) → AreFit c → (net : Network C) (place : C → Place) → AreCells c net place
        → (b : Beginning) (starts : C → Option Start) → AreStarts c net place (BeginsBy (layout_of c.airport) b) starts
        → (x : C) (t : ℕ) → IsPlace c (place x) → IsEarliestExit net starts x t ↔ IsExitLabel c (BeginsBy (layout_of c.airport) b) (label_at (place x) t) }
    ensures entries { (c : Conditions) → AreFit c → (net : Network C) (place : C → Place) → AreCells c net place
        → (nodes : List Node) (earliest latest : ℕ) (finishes : C → Option Finish) → AreFinishes c net place (ReachesOneOfWithin (layout_of c.airport) nodes earliest latest) finishes
        → (x : C) (t : ℕ) → IsPlace c (place x) → IsLatestEntry net finishes x t ↔ IsEntryLabel c (ReachesOneOfWithin (layout_of c.airport) nodes earliest latest) (label_at (place x) t) }
{}

/// The best end over cells is that of the walks to one of the nodes, and the best begin that of the walks that end at one of
/// them; and where there is no walk over cells there is no such walk.
pub fn best_walks_are_best_over_cells<C>()
    ensures ends { (c : Conditions) → AreFit c → (net : Network C) (place : C → Place) → AreCells c net place
        → (b : Beginning) (starts : C → Option Start) → AreStarts c net place (BeginsBy (layout_of c.airport) b) starts → (to : List Node) (target : C → Bool) → AreTargets c place to target
        → (end : ℕ) → IsBestEnd net starts target end ↔ IsEarliestEnd (IsRoute c (BeginsBy (layout_of c.airport) b) (ReachesOneOf (layout_of c.airport) to)) end }
    ensures no_end { (c : Conditions) → AreFit c → (net : Network C) (place : C → Place) → AreCells c net place
        → (b : Beginning) (starts : C → Option Start) → AreStarts c net place (BeginsBy (layout_of c.airport) b) starts → (to : List Node) (target : C → Bool) → AreTargets c place to target
        → HasNoWalk net starts target → (steps : List Step) → IsRoute c (BeginsBy (layout_of c.airport) b) (ReachesOneOf (layout_of c.airport) to) steps → ⊥ }
    ensures begins { (c : Conditions) → AreFit c → (net : Network C) (place : C → Place) → AreCells c net place
        → (to : List Node) (earliest latest : ℕ) (finishes : C → Option Finish) → AreFinishes c net place (ReachesOneOfWithin (layout_of c.airport) to earliest latest) finishes → (from : Node) (source : C → Bool) → AreSources c place from source
        → (begin : ℕ) → IsBestBegin net finishes source begin ↔ IsLatestBegin (IsRoute c (LeavesNode (layout_of c.airport) from) (ReachesOneOfWithin (layout_of c.airport) to earliest latest)) begin }
    ensures no_begin { (c : Conditions) → AreFit c → (net : Network C) (place : C → Place) → AreCells c net place
        → (to : List Node) (earliest latest : ℕ) (finishes : C → Option Finish) → AreFinishes c net place (ReachesOneOfWithin (layout_of c.airport) to earliest latest) finishes → (from : Node) (source : C → Bool) → AreSources c place from source
        → HasNoWalkFrom net finishes source → (steps : List Step) → IsRoute c (LeavesNode (layout_of c.airport) from) (ReachesOneOfWithin (layout_of c.airport) to earliest latest) steps → ⊥ }
{}

/// The rows of the values of numbered cells are the table of labels, below or above any bound. Here `value` reads what is
/// known of a cell, and `none` is what is known of none.
pub fn values_of_cells_are_tables<A>()
    ensures exits { (c : Conditions) → AreFit c → (cells : List Place) (net : Network ℕ) → AreCells c net (place_at cells) → IsOrdered c (place_at cells) (λ j k. j < k)
        → (b : Beginning) (starts : ℕ → Option Start) → AreStarts c net (place_at cells) (BeginsBy (layout_of c.airport) b) starts
        → (bound : Option ℕ) (value : A → Option ℕ) (known : List A) (none : A) → length known ≡ length cells
        → ((k v : ℕ) → (value (slice_index_or known k none) ≡ Some v) ↔ (IsEarliestExit net starts k v × IsBelow bound v))
        → IsTable (IsExitBefore c (BeginsBy (layout_of c.airport) b) bound) (rows_of value cells known) }
    ensures entries { (c : Conditions) → AreFit c → (cells : List Place) (net : Network ℕ) → AreCells c net (place_at cells) → IsOrdered c (place_at cells) (λ j k. j < k)
        → (nodes : List Node) (earliest latest : ℕ) (finishes : ℕ → Option Finish) → AreFinishes c net (place_at cells) (ReachesOneOfWithin (layout_of c.airport) nodes earliest latest) finishes
        → (bound : Option ℕ) (value : A → Option ℕ) (known : List A) (none : A) → length known ≡ length cells
        → ((k v : ℕ) → (value (slice_index_or known k none) ≡ Some v) ↔ (IsLatestEntry net finishes k v × IsAbove bound v))
        → IsTable (IsEntryAfter c (ReachesOneOfWithin (layout_of c.airport) nodes earliest latest) bound) (rows_of value cells known) }
{}
