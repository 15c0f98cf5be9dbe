//! What replies promise, as laws that are proved of their definition. The functions do nothing: their clauses are the laws.
ghost use Rattle.std.specs.Prelude.{◌≡◌, ◌↔◌, ℕ, List, Some, None, Contains, IsFalse};
ghost use Rattle.taxi_base.specs.declared.answers.Flight.{Flight};
ghost use Rattle.taxi_base.specs.declared.answers.Party.{Party};
ghost use Rattle.taxi_base.specs.declared.rows.LabelRow.{LabelRow};
ghost use Rattle.taxi_base.specs.declared.rows.Step.{Step};
ghost use Rattle.taxi_base.specs.Airport.{Airport, IsWellFormed};
ghost use Rattle.taxi_base.specs.Again.{IsBestFor};
ghost use Rattle.taxi_base.specs.Late.{Delay, is_late, flight_meets, party_meets, KeepsEntered};
ghost use Rattle.taxi_base.specs.State.{State, step_begun, IsSound};
ghost use Rattle.taxi_text.specs.declared.command.Command.{Command};
ghost use Rattle.taxi_text.specs.declared.command.Command.TheVariants as command;
ghost use Rattle.replies.specs.declared.block.Block.{Block};
ghost use Rattle.replies.specs.declared.entries.Entry.{Entry};
ghost use Rattle.replies.specs.declared.wish.Wish.{Wish};
ghost use Rattle.replies.specs.declared.block.Block.TheVariants.{Route, NoRoute};
ghost use Rattle.replies.specs.Asked.{IsInGrammar};
ghost use Rattle.replies.specs.Refusals.{first_refusal};
ghost use Rattle.replies.specs.CarriedOut.{second_of, IsCarriedOut};
ghost use Rattle.replies.specs.Replies.{IsDue, IsReply, DoesAsItSays, IsAnswered};
ghost use Rattle.replies.specs.Batches.{IsSequenced, IsNoDearer};
ghost use Rattle.replies.specs.Repairs.{delay_of};
ghost use Rattle.replies.specs.Sought.{Sought, sought_by, IsWalkFor};
ghost use Rattle.replies.specs.Passes.{IsPassed, TellsBest};

/// Where the state is sound, each reply answers its line as is promised, and leaves it sound. So does each command that is
/// refused nothing and carried out.
pub fn replies_keep_flights_sound()
    ensures replies { (airport : Airport) (state : State) (line : List ℕ) (block : Block) (after : State) → IsSound airport state → IsReply airport state line block after → IsAnswered airport state line block after × IsSound airport after }
    ensures carried_out { (airport : Airport) (state : State) (command : Command) (block : Block) (after : State) → IsSound airport state → IsInGrammar command → first_refusal airport state command ≡ None → IsCarriedOut airport state command block after → DoesAsItSays airport state block after × IsSound airport after }
{}

/// Two due replies to one line in one state are equal. So are two ways to carry out one command.
pub fn due_replies_are_one()
    ensures due { (airport : Airport) (state : State) (line : List ℕ) (block other : Block) (after others : State) → IsWellFormed airport → IsDue airport state line block after → IsDue airport state line other others → (block ≡ other) × (after ≡ others) }
    ensures carried_out { (airport : Airport) (state : State) (command : Command) (block other : Block) (after others : State) → IsWellFormed airport → IsCarriedOut airport state command block after → IsCarriedOut airport state command other others → (block ≡ other) × (after ≡ others) }
{}

/// Where the state is sound, each reply passes every rule by which blocks are checked.
pub fn replies_pass()
    ensures { (airport : Airport) (state : State) (line : List ℕ) (block : Block) (after : State) → IsWellFormed airport → IsSound airport state → IsReply airport state line block after → IsPassed airport state line block after }
{}

/// Where the state is sound, what a block that passes tells of searches is so: a route is the best of the walks that are sought, and
/// where no route is told no walk is. A route, and that there is none, answer what the line seeks. The state stays sound.
pub fn what_passes_is_best()
    ensures best { (airport : Airport) (state : State) (line : List ℕ) (block : Block) (after : State) → IsWellFormed airport → IsSound airport state → IsPassed airport state line block after → TellsBest airport state line block }
    ensures route { (airport : Airport) (state : State) (line name : List ℕ) (second : ℕ) (steps : List Step) (labels : List LabelRow) (after : State) → IsWellFormed airport → IsSound airport state → IsPassed airport state line (Route name second steps labels) after → (s : Sought) × (sought_by airport state line ≡ Some s) × IsBestFor s.request (IsWalkFor s) steps × (second_of s.request steps ≡ second) }
    ensures no_route { (airport : Airport) (state : State) (line : List ℕ) (labels : List LabelRow) (after : State) → IsWellFormed airport → IsSound airport state → IsPassed airport state line (NoRoute labels) after → (s : Sought) × (sought_by airport state line ≡ Some s) × ((steps : List Step) → IsWalkFor s steps → ⊥) }
    ensures sound { (airport : Airport) (state : State) (line : List ℕ) (block : Block) (after : State) → IsWellFormed airport → IsSound airport state → IsPassed airport state line block after → IsSound airport after }
{}

/// The wishes of a batch are served in an order that costs at most what the given order costs, and that no exchange of neighbours makes
/// cheaper.
pub fn exchanges_lower_totals()
    ensures { (airport : Airport) (state : State) (wishes : List Wish) (total : ℕ) (entries : List (List ℕ × Entry)) (after : State) → IsWellFormed airport → IsSequenced airport state wishes total entries after → IsNoDearer airport state wishes total entries after }
{}

/// Where a flight is late, each flight that had begun by the time is in force afterwards, with the arcs and enters of the steps that it
/// had entered. A flight that is neither late nor in the way is as before, and so is a party that is not in the way.
pub fn late_repairs_keep_what_was_entered()
    ensures entered { (airport : Airport) (state : State) (name : List ℕ) (time until : ℕ) (block : Block) (after : State) (flight : Flight) (begun : Step) → IsSound airport state → first_refusal airport state (command.Late name time until) ≡ None → IsCarriedOut airport state (command.Late name time until) block after → Contains state.flights flight → step_begun time flight.steps ≡ Some begun → (now : Flight) × Contains after.flights now × (now.name ≡ flight.name) × KeepsEntered time flight.steps now.steps }
    ensures flights { (airport : Airport) (state : State) (name : List ℕ) (time until : ℕ) (block : Block) (after : State) (delay : Delay) (flight : Flight) → IsSound airport state → first_refusal airport state (command.Late name time until) ≡ None → IsCarriedOut airport state (command.Late name time until) block after → delay_of state name time until ≡ Some delay → Contains state.flights flight → IsFalse (is_late delay flight) → IsFalse (flight_meets airport delay flight) → Contains after.flights flight }
    ensures parties { (airport : Airport) (state : State) (name : List ℕ) (time until : ℕ) (block : Block) (after : State) (delay : Delay) (party : Party) → IsSound airport state → first_refusal airport state (command.Late name time until) ≡ None → IsCarriedOut airport state (command.Late name time until) block after → delay_of state name time until ≡ Some delay → (Contains after.parties party ↔ (Contains state.parties party × IsFalse (party_meets airport delay party))) }
{}
