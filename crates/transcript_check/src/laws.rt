//! What a check says of a transcript, as laws of the definitions. The function does nothing: its clauses are the laws.
ghost use Rattle.std.specs.Prelude.{◌≡◌, ℕ, List};
ghost use Rattle.taxi_base.specs.Airport.{Airport, IsWellFormed};
ghost use Rattle.replies.specs.declared.block.Block.{Block};
ghost use Rattle.transcript_check.specs.declared.failure.Failure.{Failure as FailureOf};
ghost use Rattle.transcript_check.specs.Checks.{IsRight, IsWrongAt};

/// A transcript that is right is wrong at no block, and one that is wrong is so at one block, for one reason.
pub fn transcripts_have_one_verdict()
    ensures right { (airport : Airport) (commands : List (List ℕ)) (text : List ℕ) (blocks : List Block) (number : ℕ) (why : FailureOf) → IsWellFormed airport → IsRight airport commands text blocks → IsWrongAt airport commands text number why → ⊥ }
    ensures wrong { (airport : Airport) (commands : List (List ℕ)) (text : List ℕ) (number other : ℕ) (why how : FailureOf) → IsWellFormed airport → IsWrongAt airport commands text number why → IsWrongAt airport commands text other how → (number ≡ other) × (why ≡ how) }
{}
