//! What a yes to the reply for a late flight says besides its walks, as laws. The functions do nothing: their clauses are the laws.
ghost use Rattle.std.specs.Prelude.{◌≡◌, ◌↔◌, ℕ, List, Some, Contains, IsFalse};
ghost use Rattle.taxi_base.specs.declared.answers.Flight.{Flight};
ghost use Rattle.taxi_base.specs.declared.answers.Party.{Party};
ghost use Rattle.taxi_base.specs.declared.rows.Step.{Step};
ghost use Rattle.taxi_base.specs.Airport.{Airport};
ghost use Rattle.taxi_base.specs.Late.{Delay, is_late, flight_meets, party_meets, KeepsEntered};
ghost use Rattle.taxi_base.specs.State.{State, step_begun, IsSound};
ghost use Rattle.replies.specs.declared.block.Block.{Block};
ghost use Rattle.replies.specs.Repairs.{delay_of};
ghost use Rattle.certificate_check.specs.PassedLate.{IsRepairPassed};

/// Where a block passes for a late flight, each flight that had begun by the time is in force afterwards, with the arcs and enters of
/// the steps that it had entered. A flight that is neither late nor in the way is as before. The work parties are those that are not in
/// the way.
pub fn repairs_that_pass_keep_what_was_entered()
    ensures entered { (airport : Airport) (state : State) (line name : List ℕ) (time until : ℕ) (block : Block) (after : State) (flight : Flight) (begun : Step) → IsSound airport state → IsRepairPassed airport state line name time until block after → Contains state.flights flight → step_begun time flight.steps ≡ Some begun → (now : Flight) × Contains after.flights now × (now.name ≡ flight.name) × KeepsEntered time flight.steps now.steps }
    ensures flights { (airport : Airport) (state : State) (line name : List ℕ) (time until : ℕ) (block : Block) (after : State) (delay : Delay) (flight : Flight) → IsSound airport state → IsRepairPassed airport state line name time until block after → delay_of state name time until ≡ Some delay → Contains state.flights flight → IsFalse (is_late delay flight) → IsFalse (flight_meets airport delay flight) → Contains after.flights flight }
    ensures parties { (airport : Airport) (state : State) (line name : List ℕ) (time until : ℕ) (block : Block) (after : State) (delay : Delay) (party : Party) → IsSound airport state → IsRepairPassed airport state line name time until block after → delay_of state name time until ≡ Some delay → (Contains after.parties party ↔ (Contains state.parties party × IsFalse (party_meets airport delay party))) }
{}
