//! What follows from the rules.
ghost use Rattle.std.specs.Prelude.{◌≡◌, List, ℕ, Ok, Some};
ghost use Rattle.taxi_base.specs.Airport.{IsWellFormed};
ghost use Rattle.airport_rules.specs.declared.version.Version.{Version};
ghost use Rattle.airport_rules.specs.Plan.{Plan, empty_plan, airport_of_plan};
ghost use Rattle.airport_rules.specs.Rules.{judge};
ghost use Rattle.airport_rules.specs.Sound.{IsSound};

/// Every plan that the rules let through is sound.
pub fn sound_plans()
    ensures empty { IsSound empty_plan }
    ensures judged { (version : Version) (plan new : Plan) (fields : List (List ℕ)) → IsSound plan → judge version plan fields ≡ Ok new → IsSound new }
{}

/// The airport of a sound plan keeps the rules of an airport.
pub fn well_formed_airports()
    ensures { (horizon : ℕ) (plan : Plan) → plan.horizon ≡ Some horizon → IsSound plan → IsWellFormed (airport_of_plan horizon plan) }
{}
