//! Laws on walks that begin as is asked and reach a node.
ghost use Rattle.std.specs.Prelude.{◌≡◌, ℕ, Bool, ◌<◌, ◌≤◌, ◌↔◌, List, [], ◌∷◌, length, Option, Some, None, slice_index_or, AllPairs, Contains, IsTrue};
ghost use Rattle.taxi_base.specs.declared.numbers.Node.{Node};
ghost use Rattle.taxi_base.specs.declared.rows.Step.{Step};
ghost use Rattle.taxi_base.specs.declared.rows.LabelRow.{LabelRow};
ghost use Rattle.taxi_base.specs.declared.answers.Found.{Found};
ghost use Rattle.taxi_base.specs.declared.answers.Found.TheVariants.{Route, NoRoute};
ghost use Rattle.taxi_base.specs.Airport.{layout_of};
ghost use Rattle.taxi_base.specs.Walks.{Conditions, IsFeasibleWalk, IsRoute, end_of};
ghost use Rattle.taxi_base.specs.State.{step_begun, steps_done, IsResumed};
ghost use Rattle.taxi_base.specs.Labels.{IsStepOf, precedes, IsTable, IsExitBefore, AnswersArrival};
ghost use Rattle.label_core.specs.Walks.{Network, Start, IsEarliestExit};
ghost use Rattle.label_core.specs.Best.{IsBestEnd, HasNoWalk, IsPickedRoute};
ghost use Rattle.label_core.specs.Tables.{IsBelow};
ghost use Rattle.walk_labels.specs.Places.{AreFit, Place, IsPlace, AreCells, IsOrdered, place_at, place_of};
ghost use Rattle.taxi_base.specs.Choices.{ReachesOneOf};
ghost use Rattle.walk_labels.specs.Requests.{Walk, steps_at, Beginning, BeginsBy, CanBegin, BeginsInTime, AreStarts, AreTargets};
ghost use Rattle.walk_labels.specs.Tables.{rows_of};
ghost use Rattle.walk_labels.specs.Rules.{IsStartBy, IsStartResuming, IsNext, HasAsEarly, PassesForward, PassesArrival};

/// What a search over numbered cells has found answers the arrival: the picked route with the rows of its values, or
/// no route with the rows of all values. Here `value` reads what is known of a cell, and `none` is what is known of none.
pub fn searches_over_cells_answer_arrivals<A>()
    ensures found { (c : Conditions) → AreFit c → (cells : List Place) (net : Network ℕ) → AreCells c net (place_at cells) → IsOrdered c (place_at cells) (λ j k. j < k)
        → (b : Beginning) (starts : ℕ → Option Start) → AreStarts c net (place_at cells) (BeginsBy (layout_of c.airport) b) starts
        → (to : Node) (target : ℕ → Bool) → AreTargets c (place_at cells) (to ∷ []) target
        → (value : A → Option ℕ) (known : List A) (none : A) → length known ≡ length cells
        → (end : ℕ) (steps : Walk ℕ) → IsBestEnd net starts target end → IsPickedRoute net starts (λ j k. j < k) target end steps
        → ((k v : ℕ) → (value (slice_index_or known k none) ≡ Some v) ↔ (IsEarliestExit net starts k v × IsBelow (Some end) v))
        → AnswersArrival c (BeginsBy (layout_of c.airport) b) to (Route (steps_at (place_at cells) steps) (rows_of value cells known)) }
    ensures none { (c : Conditions) → AreFit c → (cells : List Place) (net : Network ℕ) → AreCells c net (place_at cells) → IsOrdered c (place_at cells) (λ j k. j < k)
        → (b : Beginning) (starts : ℕ → Option Start) → AreStarts c net (place_at cells) (BeginsBy (layout_of c.airport) b) starts
        → (to : Node) (target : ℕ → Bool) → AreTargets c (place_at cells) (to ∷ []) target
        → (value : A → Option ℕ) (known : List A) (none : A) → length known ≡ length cells
        → HasNoWalk net starts target
        → ((k v : ℕ) → (value (slice_index_or known k none) ≡ Some v) ↔ (IsEarliestExit net starts k v × IsBelow None v))
        → AnswersArrival c (BeginsBy (layout_of c.airport) b) to (NoRoute (rows_of value cells known)) }
{}

/// Where a table passes the rules, no walk that begins so and reaches one of the nodes ends before the bound; with no bound
/// there is no such walk. The same of a flight under way, with the steps that it has done.
pub fn tables_that_pass_leave_no_arrival_out()
    ensures sooner { (c : Conditions) → AreFit c → (b : Beginning) → CanBegin c b → (to : List Node) (end : ℕ) (rows : List LabelRow) → PassesForward c (IsStartBy c b) to (Some end) rows
        → (steps : List Step) → IsRoute c (BeginsBy (layout_of c.airport) b) (ReachesOneOf (layout_of c.airport) to) steps → end ≤ end_of steps }
    ensures none { (c : Conditions) → AreFit c → (b : Beginning) → CanBegin c b → (to : List Node) (rows : List LabelRow) → PassesForward c (IsStartBy c b) to None rows
        → (steps : List Step) → IsRoute c (BeginsBy (layout_of c.airport) b) (ReachesOneOf (layout_of c.airport) to) steps → ⊥ }
    ensures resumed_sooner { (c : Conditions) → AreFit c → (old : List Step) → IsFeasibleWalk c old → (time : ℕ) (begun : Step) → step_begun time old ≡ Some begun
        → (to : Node) (end : ℕ) (rows : List LabelRow) → PassesForward c (IsStartResuming c begun time) (to ∷ []) (Some end) rows
        → (steps : List Step) → IsResumed c (steps_done time old) begun time to steps → end ≤ end_of steps }
    ensures resumed_none { (c : Conditions) → AreFit c → (old : List Step) → IsFeasibleWalk c old → (time : ℕ) (begun : Step) → step_begun time old ≡ Some begun
        → (to : Node) (rows : List LabelRow) → PassesForward c (IsStartResuming c begun time) (to ∷ []) None rows
        → (steps : List Step) → IsResumed c (steps_done time old) begun time to steps → ⊥ }
{}

/// The table of what answers an arrival passes the rules, and so does each table of the labels below a bound before which no
/// walk reaches one of the nodes.
pub fn answers_to_arrivals_pass()
    ensures answers { (c : Conditions) → AreFit c → (b : Beginning) → CanBegin c b → BeginsInTime b → (to : Node) (found : Found)
        → AnswersArrival c (BeginsBy (layout_of c.airport) b) to found → PassesArrival c (IsStartBy c b) (to ∷ []) found }
    ensures tables { (c : Conditions) → AreFit c → (b : Beginning) → CanBegin c b → BeginsInTime b → (to : List Node) (bound : Option ℕ) (rows : List LabelRow)
        → IsTable (IsExitBefore c (BeginsBy (layout_of c.airport) b) bound) rows
        → ((steps : List Step) → IsRoute c (BeginsBy (layout_of c.airport) b) (ReachesOneOf (layout_of c.airport) to) steps → IsBelow bound (end_of steps) → ⊥)
        → PassesForward c (IsStartBy c b) to bound rows }
{}

/// Rows in order that leave no start and no next label out, and each of which is the end of a walk below the bound, are the
/// table of all labels below the bound.
pub fn closed_tables_have_all_exits()
    ensures { (c : Conditions) → AreFit c → (b : Beginning) → CanBegin c b → (bound : Option ℕ) (rows : List LabelRow) → AllPairs (λ p q. IsTrue (precedes p q)) rows
        → ((row : LabelRow) → Contains rows row → IsPlace c (place_of row)
        × ((steps : List Step) × IsRoute c (BeginsBy (layout_of c.airport) b) (IsStepOf c row) steps × (end_of steps ≡ row.value)) × IsBelow bound row.value)
        → ((label : LabelRow) → IsStartBy c b label → IsBelow bound label.value → HasAsEarly rows label)
        → ((row next : LabelRow) → Contains rows row → IsNext c row next → IsBelow bound next.value → HasAsEarly rows next)
        → IsTable (IsExitBefore c (BeginsBy (layout_of c.airport) b) bound) rows }
{}
