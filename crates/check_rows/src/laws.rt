//! What it means that no rule fails.
ghost use Rattle.std.specs.Prelude.{◌≡◌, ◌↔◌, ℕ, List, [], ◌∷◌, Option, None};
ghost use Rattle.taxi_base.specs.declared.numbers.Node.{Node};
ghost use Rattle.taxi_base.specs.declared.rows.LabelRow.{LabelRow};
ghost use Rattle.taxi_base.specs.Walks.{Conditions};
ghost use Rattle.walk_labels.specs.Requests.{Beginning};
ghost use Rattle.walk_labels.specs.Rules.{IsStartBy, PassesForward};
ghost use Rattle.walk_labels.specs.BackwardRules.{IsFinishAt, PassesBackward};
ghost use Rattle.check_rows.specs.declared.verdict.RowRule.{RowRule};
ghost use Rattle.table_rows.specs.declared.reach.Way.TheVariants.{Forward, Backward};
ghost use Rattle.check_rows.specs.Rules.{IsTableVerdict};

/// No rule fails just where the table passes, and then it leaves no walk out that is better than the bound.
pub fn no_rule_fails_where_a_table_passes()
    ensures arrivals { (c : Conditions) (b : Beginning) (to : List Node) (bound : Option ℕ) (rows : List LabelRow) (verdict : Option RowRule)
        → IsTableVerdict Forward c (IsStartBy c b) to bound rows verdict → (verdict ≡ None) ↔ PassesForward c (IsStartBy c b) to bound rows }
    ensures departures { (c : Conditions) (to : List Node) (earliest latest : ℕ) (from : Node) (bound : Option ℕ) (rows : List LabelRow) (verdict : Option RowRule)
        → IsTableVerdict Backward c (IsFinishAt c to earliest latest) (from ∷ []) bound rows verdict → (verdict ≡ None) ↔ PassesBackward c (IsFinishAt c to earliest latest) from bound rows }
{}
