//! A state has one plan, as a law. The function does nothing: its clause is the law.
ghost use Rattle.std.specs.Prelude.{◌≡◌, ℕ, List, Option};
ghost use Rattle.taxi_base.specs.Airport.{Airport};
ghost use Rattle.taxi_base.specs.State.{State};
ghost use Rattle.plan_table.specs.Plan.{IsPlan};

/// What is in force has one plan. So the text depends on the airport, the flights and work parties, and the start alone.
pub fn plans_are_one()
    ensures { (airport : Airport) (state : State) (start : Option (List ℕ)) (text other : List ℕ)
        → IsPlan airport state start text → IsPlan airport state start other → text ≡ other }
{}
