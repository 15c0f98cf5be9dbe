//! What a run over a checkpoint brings back. The function does nothing: its clauses are the laws.
ghost use Rattle.std.specs.Prelude.{◌≡◌, ℕ, List, All, map};
ghost use Rattle.taxi_base.specs.declared.answers.Refusal.TheVariants as refusal;
ghost use Rattle.taxi_base.specs.Airport.{Airport, IsWellFormed};
ghost use Rattle.taxi_base.specs.State.{State, no_holder, held_by_each, IsSound};
ghost use Rattle.taxi_text.specs.Lines.{commands_of};
ghost use Rattle.replies.specs.declared.block.Block.{Block};
ghost use Rattle.replies.specs.declared.block.Block.TheVariants.{Refused};
ghost use Rattle.replies.specs.Replies.{IsDue, HaveNames};
ghost use Rattle.transcripts.specs.Runs.{InTurn, IsRun};
ghost use Rattle.checkpoint_file.specs.Lines.{checkpoint_text};
ghost use Rattle.checkpoint_file.specs.Restored.{fileable, restored, all_filed};

/// The commands of a checkpoint are due `filed`, one after the other, and bring back all that was in force: each flight as filed, but
/// for those whose routes are too long. So a run over the checkpoint of what another run left in force is answered so, where memory
/// runs out for no command. Each holder that is brought back holds what it held.
pub fn checkpoints_restore_what_is_in_force()
    ensures due { (airport : Airport) (state : State) → IsWellFormed airport → IsSound airport state → HaveNames state → InTurn IsDue airport no_holder (commands_of (checkpoint_text airport state)) (all_filed (restored state)) (restored state) }
    ensures run { (airport : Airport) (lines : List (List ℕ)) (blocks others : List Block) (state after : State) → IsWellFormed airport → IsRun airport no_holder lines blocks state → IsRun airport no_holder (commands_of (checkpoint_text airport state)) others after → All (λ block. block ≡ Refused refusal.Memory → ⊥) others → (others ≡ all_filed (restored state)) × (after ≡ restored state) }
    ensures held { (airport : Airport) (state : State) → held_by_each airport (restored state) ≡ held_by_each airport (record state { flights = fileable state.flights }) }
{}
