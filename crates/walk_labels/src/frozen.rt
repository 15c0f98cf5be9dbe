//! Laws on a flight under way.
ghost use Rattle.std.specs.Prelude.{◌≡◌, ℕ, ◌≤◌, ◌++◌, ◌∷◌, List, Some};
ghost use Rattle.taxi_base.specs.declared.rows.Step.{Step};
ghost use Rattle.taxi_base.specs.Walks.{Conditions, IsFeasibleStep, IsFeasibleWalk, end_of};
ghost use Rattle.taxi_base.specs.State.{step_begun, steps_done};
ghost use Rattle.walk_labels.specs.Places.{AreFit};

/// A step that was begun by a time can be made, and where the walk doesn't end before the time the step isn't left before it.
/// A walk that goes on from it behind the steps done ends when the whole does.
pub fn steps_begun_are_left_late()
    ensures made { (c : Conditions) (old : List Step) → IsFeasibleWalk c old → (time : ℕ) (begun : Step) → step_begun time old ≡ Some begun → IsFeasibleStep c begun }
    ensures late { (c : Conditions) → AreFit c → (old : List Step) → IsFeasibleWalk c old → (time : ℕ) (begun : Step) → step_begun time old ≡ Some begun → time ≤ end_of old → time ≤ begun.leave }
    ensures end { (time : ℕ) (old : List Step) (first : Step) (rest : List Step) → end_of (steps_done time old ++ first ∷ rest) ≡ end_of (first ∷ rest) }
{}
