//! What asking and cancelling leave behind. The function does nothing: its clauses are the laws.
ghost use Rattle.std.specs.Prelude.{◌≡◌, ℕ, List, IsFalse};
ghost use Rattle.taxi_base.specs.declared.rows.LabelRow.{LabelRow};
ghost use Rattle.taxi_base.specs.declared.rows.Step.{Step};
ghost use Rattle.taxi_base.specs.Airport.{Airport};
ghost use Rattle.taxi_base.specs.State.{State, has_holder, IsSound};
ghost use Rattle.replies.specs.declared.block.Block.TheVariants.{Route, Filed, Cancelled};
ghost use Rattle.replies.specs.Replies.{IsReply};

/// A line asks for a flight that is new, and a later one cancels it: the holders in force are as they were. So they are where a route given by
/// hand or a work party is filed and taken out.
pub fn asking_and_cancelling_changes_nothing()
    ensures route { (airport : Airport) (state mid after : State) (line other name : List ℕ) (second : ℕ) (steps : List Step) (labels : List LabelRow) → IsSound airport state → IsFalse (has_holder name state) →
        IsReply airport state line (Route name second steps labels) mid → IsReply airport mid other (Cancelled name) after → after ≡ state }
    ensures filed { (airport : Airport) (state mid after : State) (line other name : List ℕ) (start end : ℕ) → IsSound airport state → IsFalse (has_holder name state) →
        IsReply airport state line (Filed name start end) mid → IsReply airport mid other (Cancelled name) after → after ≡ state }
{}
