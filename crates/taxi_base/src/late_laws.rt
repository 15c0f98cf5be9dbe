//! What the definitions of a late repair mean, as laws that are proved of them. The functions do nothing: their clauses are the
//! laws.
ghost use Rattle.std.specs.Prelude.{◌≡◌, ◌↔◌, ◌+◌, ◌<◌, ℕ, List, Option, Some, length, AllPairs, Contains, IsTrue, IsFalse, bytes_eq};
ghost use Rattle.taxi_base.specs.declared.answers.Flight.{Flight};
ghost use Rattle.taxi_base.specs.declared.answers.Found.{Found};
ghost use Rattle.taxi_base.specs.declared.answers.Party.{Party};
ghost use Rattle.taxi_base.specs.declared.answers.Request.{Request};
ghost use Rattle.taxi_base.specs.declared.answers.Request.TheVariants.{Arrival};
ghost use Rattle.taxi_base.specs.declared.numbers.Node.{Node};
ghost use Rattle.taxi_base.specs.declared.rows.Step.{Step};
ghost use Rattle.taxi_base.specs.Airport.{Airport, IsWellFormed, layout_of, clearance_of};
ghost use Rattle.taxi_base.specs.Windows.{clash, hold_of};
ghost use Rattle.taxi_base.specs.Walks.{Conditions, AtFirst, IsFeasibleWalk, LeavesNodeWithin, Meets};
ghost use Rattle.taxi_base.specs.State.{State, with_route, conditions_of, step_begun, IsClashFree, IsFeasibleState, IsSound, IsFrozenWalk};
ghost use Rattle.taxi_base.specs.Late.{Delay, Meeting, IsDelay, prolonged_hold, AreInTheWay, is_late, party_meets, flight_meets, base_state, AnswersTurn, IsBestSought, IsRepaired, KeepsEntered};

/// No step of another flight that meets the prolonged hold was entered by the time, and no party that meets it began by then.
pub fn what_is_in_the_way_is_still_to_come()
    ensures steps { (airport : Airport) (state : State) (delay : Delay) (flight : Flight) (step : Step) → IsFeasibleState airport state → IsDelay airport state delay → Contains state.flights flight → IsFalse (is_late delay flight) → Contains flight.steps step → IsTrue (clash airport.conflicts (prolonged_hold airport delay) (hold_of airport.horizon (clearance_of airport flight.class) step)) → delay.time < step.enter }
    ensures parties { (airport : Airport) (state : State) (delay : Delay) (party : Party) → IsFeasibleState airport state → IsDelay airport state delay → Contains state.parties party → IsTrue (party_meets airport delay party) → delay.time < party.from }
{}

/// So the base state has feasible holders that do not clash.
pub fn base_states_are_feasible()
    ensures feasible { (airport : Airport) (state : State) (delay : Delay) → IsFeasibleState airport state → IsDelay airport state delay → IsFeasibleState airport (base_state airport state delay) }
    ensures clash_free { (airport : Airport) (state : State) (delay : Delay) → IsFeasibleState airport state → IsDelay airport state delay → IsClashFree airport (base_state airport state delay) }
{}

/// Those in the way are one list, and none of them stands twice in it.
pub fn those_in_the_way_are_one_list()
    ensures one { (airport : Airport) (state : State) (delay : Delay) (meetings others : List Meeting) → AreInTheWay airport state delay meetings → AreInTheWay airport state delay others → meetings ≡ others }
    ensures once { (airport : Airport) (state : State) (delay : Delay) (meetings : List Meeting) → IsFeasibleState airport state → IsDelay airport state delay → AreInTheWay airport state delay meetings → AllPairs (λ a b. IsFalse (bytes_eq b.name a.name)) meetings }
{}

/// A flight on a feasible walk among the others may get another one. Each walk that an arrival under way may take is what it asked
/// for, with the new node to reach, where its steps so far begin as it asked.
pub fn flights_go_on_in_feasible_states()
    ensures route { (airport : Airport) (flight : Flight) (state : State) (request : Request) (steps : List Step) → IsFeasibleState airport state → Contains state.flights flight → IsFeasibleWalk (conditions_of airport state flight) steps → IsFeasibleState airport (with_route flight request steps state) }
    ensures meets { (c : Conditions) (old : List Step) (time : ℕ) (target from to : Node) (asked hold : ℕ) (steps : List Step) → (0 < length old → AtFirst (LeavesNodeWithin (layout_of c.airport) from asked (asked + hold)) old) → IsFrozenWalk c old time target (Arrival from to asked hold) steps → Meets c (Arrival from target asked hold) steps }
{}

/// What is answered at a turn is the best of the walks that are sought, or that there is none, where the kept steps are a walk.
pub fn turns_are_best()
    ensures { (c : Conditions) (request : Request) (kept : List Step) (time : ℕ) (found : Found) → (0 < length kept → IsFeasibleWalk c kept) → AnswersTurn c request kept time found → IsBestSought c request kept time found }
{}

/// After a late repair of a sound state the state is sound. Who is neither late nor in the way is as before. Each flight that had
/// begun is in force, with the arcs and enters of the steps that it had entered.
pub fn late_repairs_are_sound()
    ensures sound { (airport : Airport) (state after : State) (delay : Delay) (meetings : List Meeting) (tells : List (Option Found)) → IsSound airport state → IsDelay airport state delay → IsRepaired airport state delay meetings tells after → IsSound airport after }
    ensures flights { (airport : Airport) (state after : State) (delay : Delay) (meetings : List Meeting) (tells : List (Option Found)) (flight : Flight) → IsSound airport state → IsDelay airport state delay → IsRepaired airport state delay meetings tells after → Contains state.flights flight → IsFalse (is_late delay flight) → IsFalse (flight_meets airport delay flight) → Contains after.flights flight }
    ensures parties { (airport : Airport) (state after : State) (delay : Delay) (meetings : List Meeting) (tells : List (Option Found)) (party : Party) → IsSound airport state → IsDelay airport state delay → IsRepaired airport state delay meetings tells after → Contains after.parties party ↔ (Contains state.parties party × IsFalse (party_meets airport delay party)) }
    ensures entered { (airport : Airport) (state after : State) (delay : Delay) (meetings : List Meeting) (tells : List (Option Found)) (flight : Flight) (begun : Step) → IsSound airport state → IsDelay airport state delay → IsRepaired airport state delay meetings tells after → Contains state.flights flight → step_begun delay.time flight.steps ≡ Some begun → (now : Flight) × Contains after.flights now × (now.name ≡ flight.name) × KeepsEntered delay.time flight.steps now.steps }
{}

/// A late repair has one outcome: who takes a turn, what each is answered, and the state after.
pub fn late_repairs_are_one()
    ensures { (airport : Airport) (state after last : State) (delay : Delay) (meetings others : List Meeting) (tells told : List (Option Found)) → IsWellFormed airport → IsRepaired airport state delay meetings tells after → IsRepaired airport state delay others told last → (meetings ≡ others) × (tells ≡ told) × (after ≡ last) }
{}
