//! That a run is determined by its lines, as a law. The function does nothing: its clause is the law.
ghost use Rattle.std.specs.Prelude.{◌≡◌, ℕ, List};
ghost use Rattle.taxi_base.specs.Airport.{Airport, IsWellFormed};
ghost use Rattle.taxi_base.specs.State.{State};
ghost use Rattle.transcripts.specs.Supplied.{IsSuppliedRun};

/// Two runs over the same commands, in which memory runs out for none, have the same blocks and end in the same state.
pub fn supplied_runs_are_one()
    ensures { (airport : Airport) (commands : List (List ℕ)) (after other : State) (one : IsSuppliedRun airport commands after) (two : IsSuppliedRun airport commands other) → IsWellFormed airport → (one.blocks ≡ two.blocks) × (after ≡ other) }
{}
