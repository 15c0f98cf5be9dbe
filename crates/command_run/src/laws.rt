//! What it is for a line to have ended, as laws of the definitions. The function does nothing: its clauses are the laws.
ghost use Rattle.std.specs.Prelude.{◌≡◌, ◌≤◌, ◌++◌, ℕ, List, length};
ghost use Rattle.taxi_text.specs.Lines.{lines_of};
ghost use Rattle.command_run.specs.Ended.{ended_lines_of, unended_lines_of};

/// The lines that have ended in the first bytes of a text are its first lines, whatever comes behind those bytes. The bytes have one
/// line more at most.
pub fn ended_lines_stay()
    ensures first { (bytes more : List ℕ) → (rest : List (List ℕ)) × (lines_of (bytes ++ more) ≡ ended_lines_of bytes ++ rest) }
    ensures one { (bytes : List ℕ) → length (unended_lines_of bytes) ≤ 1 }
{}
