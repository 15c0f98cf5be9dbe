//! What makes no difference to runs. The functions do nothing: their clauses are the laws.
ghost use Rattle.std.specs.Prelude.{◌≡◌, ◌↔◌, ◌⊎◌, ◌<◌, ℕ, [], true, List, length, slice_index_or, Contains, IsFalse};
ghost use Rattle.taxi_base.specs.declared.numbers.Arc.{Arc};
ghost use Rattle.taxi_base.specs.Airport.{Airport};
ghost use Rattle.taxi_base.specs.State.{State, no_holder};
ghost use Rattle.taxi_text.specs.declared.command.Command.{Command};
ghost use Rattle.replies.specs.declared.block.Block.{Block};
ghost use Rattle.replies.specs.Refusals.{first_refusal};
ghost use Rattle.replies.specs.Replies.{IsDue};
ghost use Rattle.transcripts.specs.Runs.{IsRun, transcript};
ghost use Rattle.airport_lint.specs.declared.advice.Advice.TheVariants.{IdleTurn, SameSet, NeedlessSet};
ghost use Rattle.airport_lint.specs.Advice.{IsSo};
ghost use Rattle.airport_lint.specs.Sets.{first_like, needed_marks};
ghost use Rattle.spare_rules.specs.Spared.{spared};

/// Every run is the same without all forbidden turns that are idle and all sets of conflicting segments that are not needed. Each command has
/// the same refusals, each line is due the same reply, with the same labels, and the transcript is the same text.
pub fn runs_are_the_same()
    ensures refusals { (airport : Airport) (state : State) (command : Command) → first_refusal airport state command ≡ first_refusal (spared airport) state command }
    ensures due { (airport : Airport) (state : State) (line : List ℕ) (block : Block) (after : State) → IsDue airport state line block after ↔ IsDue (spared airport) state line block after }
    ensures runs { (airport : Airport) (lines : List (List ℕ)) (blocks : List Block) (after : State) → IsRun airport no_holder lines blocks after ↔ IsRun (spared airport) no_holder lines blocks after }
    ensures text { (airport : Airport) (blocks : List Block) → transcript airport blocks ≡ transcript (spared airport) blocks }
{}

/// What is left out is what advice tells of: a forbidden turn stays just where it is not idle, and a set is not needed just where it is the
/// same as one before it, or needless.
pub fn spare_rules_are_told()
    ensures turns { (airport : Airport) (turn : Arc × Arc) → Contains (spared airport).forbidden turn ↔ (Contains airport.forbidden turn × (IsSo airport (IdleTurn turn.0 turn.1) → ⊥)) }
    ensures sets { (airport : Airport) (k : ℕ) → k < length airport.conflicts → IsFalse (slice_index_or (needed_marks [] airport.conflicts) k true) ↔ (IsSo airport (SameSet k (first_like airport.conflicts k)) ⊎ IsSo airport (NeedlessSet k)) }
{}
