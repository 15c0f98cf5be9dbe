//! What comes of a run is determined by its input, as a law. The function does nothing: its clauses are the law.
ghost use Rattle.std.specs.Prelude.{◌≡◌, ◌≤◌, ℕ, List};
ghost use Rattle.taxi_base.specs.Airport.{Airport, IsWellFormed};
ghost use Rattle.generated_run.specs.declared.summary.Summary.{Summary as SummaryOf};
ghost use Rattle.generated_run.specs.Summaries.{IsSummaryOf, IsSummary};

/// Two runs over the same lines in which memory runs out for no command come to the same. So what comes of a made input
/// depends on its number, its side and its count of flights alone.
pub fn summaries_are_one()
    ensures run { (airport : Airport) (lines : List (List ℕ)) (one other : SummaryOf) → IsWellFormed airport → IsSummaryOf airport lines one → IsSummaryOf airport lines other → one ≡ other }
    ensures made { (number side flights : ℕ) (one other : SummaryOf) → 2 ≤ side → side ≤ 40 → IsSummary number side flights one → IsSummary number side flights other → one ≡ other }
{}
