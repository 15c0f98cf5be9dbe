//! What is so of all figures, as laws of the definitions. The functions do nothing: their clauses are the laws.
ghost use Rattle.std.specs.Prelude.{◌≡◌, ◌-◌, ◌≤◌, ℕ, List, All, codes, filter, flat_map, length, sum_by};
ghost use Rattle.taxi_base.specs.declared.numbers.Class.{Class};
ghost use Rattle.taxi_base.specs.declared.rows.FlightKind.{FlightKind};
ghost use Rattle.taxi_base.specs.declared.answers.Refusal.TheVariants.{Memory};
ghost use Rattle.taxi_base.specs.Airport.{Airport, IsWellFormed};
ghost use Rattle.taxi_base.specs.State.{State, IsSound, flights_hold};
ghost use Rattle.replies.specs.declared.block.Block.{Block};
ghost use Rattle.replies.specs.declared.block.Block.TheVariants.{Refused};
ghost use Rattle.run_figures.specs.Counts.{reply_word, refusal_word, reply_kinds, refusal_kinds, refusals_of, how_many};
ghost use Rattle.run_figures.specs.Figures.{IsFigures};
ghost use Rattle.run_figures.specs.Flights.{is_of, sums_of, waits_of, IsOrderly};

/// Each reply is of one kind, and each refusal but that memory ran out. What flights of a kind and a class wait together is the sum of
/// their waits on single steps, as the plan tells them.
pub fn figures_add_up()
    ensures replies { (airport : Airport) (blocks : List Block) → sum_by (λ kind. how_many (reply_word airport) kind blocks) reply_kinds ≡ length blocks }
    ensures refusals { (airport : Airport) (blocks : List Block) → All (λ block. block ≡ Refused Memory → ⊥) blocks → sum_by (λ kind. how_many refusal_word kind (flat_map refusals_of blocks)) refusal_kinds ≡ how_many (reply_word airport) (codes "refused") blocks }
    ensures waits { (airport : Airport) (state : State) → IsSound airport state → (kind : FlightKind) (class : Class) → (sums_of airport (filter (is_of kind class) state.flights)).taxied - (sums_of airport (filter (is_of kind class) state.flights)).least ≡ sum_by (waits_of airport) (filter (is_of kind class) state.flights) }
{}

/// Where the state is sound, no difference in the figures is negative. No flight taxies for less than its class's least seconds. No
/// arrival begins before the time that it asked for, and no departure ends after it. No hold ends before it begins.
pub fn no_figure_is_negative()
    ensures flights { (airport : Airport) (state : State) → IsWellFormed airport → IsSound airport state → All (IsOrderly airport) state.flights }
    ensures sums { (airport : Airport) (state : State) → IsWellFormed airport → IsSound airport state → (kind : FlightKind) (class : Class) → (sums_of airport (filter (is_of kind class) state.flights)).least ≤ (sums_of airport (filter (is_of kind class) state.flights)).taxied }
    ensures holds { (airport : Airport) (state : State) → IsWellFormed airport → IsSound airport state → All (λ hold. hold.span.from ≤ hold.span.until) (flights_hold airport state.flights) }
{}

/// A run has one text of figures. So it depends on the airport, the replies and what is in force at the end alone.
pub fn figures_are_one()
    ensures { (airport : Airport) (blocks : List Block) (state : State) (text other : List ℕ) → IsFigures airport blocks state text → IsFigures airport blocks state other → text ≡ other }
{}
