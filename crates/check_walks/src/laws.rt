//! What it means that a block breaks none of the rules, as a law. The function does nothing: its clauses are the law.
ghost use Rattle.std.specs.Prelude.{◌≡◌, ℕ, List, None};
ghost use Rattle.taxi_base.specs.declared.answers.Request.{Request};
ghost use Rattle.taxi_base.specs.declared.numbers.Class.{Class};
ghost use Rattle.taxi_base.specs.declared.rows.LabelRow.{LabelRow};
ghost use Rattle.taxi_base.specs.declared.rows.Step.{Step};
ghost use Rattle.taxi_base.specs.Airport.{Airport, IsWellFormed};
ghost use Rattle.taxi_base.specs.State.{State};
ghost use Rattle.taxi_base.specs.Again.{IsBestFor};
ghost use Rattle.replies.specs.declared.block.Block.TheVariants.{Route, NoRoute};
ghost use Rattle.replies.specs.CarriedOut.{second_of};
ghost use Rattle.replies.specs.Sought.{sought_new, IsWalkFor};
ghost use Rattle.replies.specs.Passes.{KeepsSought, IsFirstOf};

/// A route that breaks no rule is the best walk that does what a new flight asked for among all holders, with its second. A
/// block that tells of no route, and breaks no rule, is right: there is no such walk.
pub fn what_breaks_no_rule_is_best()
    ensures route { (airport : Airport) (state : State) (name : List ℕ) (class : Class) (request : Request) (told : List ℕ) (second : ℕ) (steps : List Step) (labels : List LabelRow) → IsWellFormed airport → IsFirstOf (λ rule. KeepsSought rule (sought_new airport state name class request) (Route told second steps labels)) None → IsBestFor request (IsWalkFor (sought_new airport state name class request)) steps × (second_of request steps ≡ second) }
    ensures no_route { (airport : Airport) (state : State) (name : List ℕ) (class : Class) (request : Request) (labels : List LabelRow) (steps : List Step) → IsWellFormed airport → IsFirstOf (λ rule. KeepsSought rule (sought_new airport state name class request) (NoRoute labels)) None → IsWalkFor (sought_new airport state name class request) steps → ⊥ }
{}
