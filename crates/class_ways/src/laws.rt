//! What ways say of walks. The function does nothing: its clause is the law.
ghost use Rattle.std.specs.Prelude.{List, map};
ghost use Rattle.taxi_base.specs.declared.rows.Step.{Step};
ghost use Rattle.taxi_base.specs.Walks.{Conditions, IsFeasibleWalk};
ghost use Rattle.class_ways.specs.Ways.{IsWay};

/// Each walk of a class, whoever else holds what, is on one of its ways.
pub fn walks_are_on_ways()
    ensures { (c : Conditions) (steps : List Step) → IsFeasibleWalk c steps → IsWay c.airport c.class (map (λ step. step.arc) steps) }
{}
