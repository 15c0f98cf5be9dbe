//! Laws on walks that leave a node and end as is asked.
ghost use Rattle.std.specs.Prelude.{◌≡◌, ℕ, Bool, ◌<◌, ◌≤◌, ◌↔◌, List, [], ◌∷◌, length, Option, Some, None, slice_index_or, AllPairs, Contains, IsTrue};
ghost use Rattle.taxi_base.specs.declared.numbers.Node.{Node};
ghost use Rattle.taxi_base.specs.declared.rows.Step.{Step};
ghost use Rattle.taxi_base.specs.declared.rows.LabelRow.{LabelRow};
ghost use Rattle.taxi_base.specs.declared.answers.Found.{Found};
ghost use Rattle.taxi_base.specs.declared.answers.Found.TheVariants.{Route, NoRoute};
ghost use Rattle.taxi_base.specs.Airport.{layout_of};
ghost use Rattle.taxi_base.specs.Walks.{Conditions, IsRoute, LeavesNode, ReachesNodeWithin, begin_of};
ghost use Rattle.taxi_base.specs.Labels.{IsStepOf, precedes, IsTable, IsEntryAfter, AnswersDeparture, AnswersDepartureAfter};
ghost use Rattle.label_core.specs.Walks.{Network};
ghost use Rattle.label_core.specs.BackwardWalks.{Finish, IsLatestEntry};
ghost use Rattle.label_core.specs.BackwardBest.{IsBestBegin, HasNoWalkFrom, IsPickedRouteOn};
ghost use Rattle.label_core.specs.BackwardTables.{IsAbove};
ghost use Rattle.walk_labels.specs.Places.{AreFit, Place, IsPlace, AreCells, IsOrdered, place_at, place_of};
ghost use Rattle.taxi_base.specs.Choices.{ReachesOneOfWithin};
ghost use Rattle.walk_labels.specs.Requests.{Walk, steps_at, AreFinishes, AreSources};
ghost use Rattle.walk_labels.specs.Tables.{rows_of};
ghost use Rattle.walk_labels.specs.BackwardRules.{IsFinishAt, IsPrevious, HasAsLate, PassesBackward, PassesDeparture, PassesDepartureAfter};

/// What a search over numbered cells has found answers the departure: the picked route with the rows of its values, or
/// no route with the rows of all values. Here `value` reads what is known of a cell, and `none` is what is known of none.
pub fn searches_over_cells_answer_departures<A>()
    ensures found { (c : Conditions) → AreFit c → (cells : List Place) (net : Network ℕ) → AreCells c net (place_at cells) → IsOrdered c (place_at cells) (λ j k. j < k)
        → (to : Node) (earliest latest : ℕ) (finishes : ℕ → Option Finish) → AreFinishes c net (place_at cells) (ReachesNodeWithin (layout_of c.airport) to earliest latest) finishes
        → (from : Node) (source : ℕ → Bool) → AreSources c (place_at cells) from source
        → (value : A → Option ℕ) (known : List A) (none : A) → length known ≡ length cells
        → (begin : ℕ) (steps : Walk ℕ) → IsBestBegin net finishes source begin → IsPickedRouteOn net finishes (λ j k. j < k) source begin steps
        → ((k v : ℕ) → (value (slice_index_or known k none) ≡ Some v) ↔ (IsLatestEntry net finishes k v × IsAbove (Some begin) v))
        → AnswersDeparture c from (ReachesNodeWithin (layout_of c.airport) to earliest latest) (Route (steps_at (place_at cells) steps) (rows_of value cells known)) }
    ensures none { (c : Conditions) → AreFit c → (cells : List Place) (net : Network ℕ) → AreCells c net (place_at cells) → IsOrdered c (place_at cells) (λ j k. j < k)
        → (to : Node) (earliest latest : ℕ) (finishes : ℕ → Option Finish) → AreFinishes c net (place_at cells) (ReachesNodeWithin (layout_of c.airport) to earliest latest) finishes
        → (from : Node) (source : ℕ → Bool) → AreSources c (place_at cells) from source
        → (value : A → Option ℕ) (known : List A) (none : A) → length known ≡ length cells
        → HasNoWalkFrom net finishes source
        → ((k v : ℕ) → (value (slice_index_or known k none) ≡ Some v) ↔ (IsLatestEntry net finishes k v × IsAbove None v))
        → AnswersDeparture c from (ReachesNodeWithin (layout_of c.airport) to earliest latest) (NoRoute (rows_of value cells known)) }
{}

/// Where a table passes the rules, no walk from the node that ends so at one of the nodes begins after the bound; with no
/// bound there is no such walk.
pub fn tables_that_pass_leave_no_departure_out()
    ensures later { (c : Conditions) → AreFit c → (to : List Node) (earliest latest : ℕ) (from : Node) (begin : ℕ) (rows : List LabelRow) → PassesBackward c (IsFinishAt c to earliest latest) from (Some begin) rows
        → (steps : List Step) → IsRoute c (LeavesNode (layout_of c.airport) from) (ReachesOneOfWithin (layout_of c.airport) to earliest latest) steps → begin_of steps ≤ begin }
    ensures none { (c : Conditions) → AreFit c → (to : List Node) (earliest latest : ℕ) (from : Node) (rows : List LabelRow) → PassesBackward c (IsFinishAt c to earliest latest) from None rows
        → (steps : List Step) → IsRoute c (LeavesNode (layout_of c.airport) from) (ReachesOneOfWithin (layout_of c.airport) to earliest latest) steps → ⊥ }
{}

/// The table of what answers a departure passes the rules, also where only walks that begin after a second count; and so does each table of the labels above a bound after which no
/// walk begins.
pub fn answers_to_departures_pass()
    ensures answers { (c : Conditions) → AreFit c → (from to : Node) (earliest latest : ℕ) (found : Found)
        → AnswersDeparture c from (ReachesNodeWithin (layout_of c.airport) to earliest latest) found → PassesDeparture c (IsFinishAt c (to ∷ []) earliest latest) from found }
    ensures after { (c : Conditions) → AreFit c → (from to : Node) (earliest latest bound : ℕ) (found : Found)
        → AnswersDepartureAfter c from (ReachesNodeWithin (layout_of c.airport) to earliest latest) bound found → PassesDepartureAfter c (IsFinishAt c (to ∷ []) earliest latest) from bound found }
    ensures tables { (c : Conditions) → AreFit c → (to : List Node) (earliest latest : ℕ) (from : Node) (bound : Option ℕ) (rows : List LabelRow)
        → IsTable (IsEntryAfter c (ReachesOneOfWithin (layout_of c.airport) to earliest latest) bound) rows
        → ((steps : List Step) → IsRoute c (LeavesNode (layout_of c.airport) from) (ReachesOneOfWithin (layout_of c.airport) to earliest latest) steps → IsAbove bound (begin_of steps) → ⊥)
        → PassesBackward c (IsFinishAt c to earliest latest) from bound rows }
{}

/// Rows in order that leave no finish and no previous label out, and each of which is the begin of a walk above the bound,
/// are the table of all labels above the bound.
pub fn closed_tables_have_all_entries()
    ensures { (c : Conditions) → AreFit c → (to : List Node) (earliest latest : ℕ) (bound : Option ℕ) (rows : List LabelRow) → AllPairs (λ p q. IsTrue (precedes p q)) rows
        → ((row : LabelRow) → Contains rows row → IsPlace c (place_of row)
        × ((steps : List Step) × IsRoute c (IsStepOf c row) (ReachesOneOfWithin (layout_of c.airport) to earliest latest) steps × (begin_of steps ≡ row.value)) × IsAbove bound row.value)
        → ((label : LabelRow) → IsFinishAt c to earliest latest label → IsAbove bound label.value → HasAsLate rows label)
        → ((row previous : LabelRow) → Contains rows row → IsPrevious c row previous → IsAbove bound previous.value → HasAsLate rows previous)
        → IsTable (IsEntryAfter c (ReachesOneOfWithin (layout_of c.airport) to earliest latest) bound) rows }
{}
