//! What second a civil time later names, as a law of the definitions. The function does nothing: its clauses are the laws.
ghost use Rattle.std.specs.Prelude.{◌≡◌, ◌≤◌, ◌+ℤ◌, ℕ, ℤ, List, Some, IsTrue, pos, drop};
ghost use Rattle.civil_times.specs.Times.{second_of};
ghost use Rattle.civil_times.specs.Later.{is_start, civil_text};

/// The text of a start moved on by so many seconds is a civil time again, of the second that comes so many seconds later.
/// It ends in the same offset.
pub fn later_times_are_times()
    ensures second { (start : List ℕ) (second : ℤ) (seconds : ℕ) → IsTrue (is_start start) → second_of start ≡ Some second → seconds ≤ 604800 → second_of (civil_text start seconds) ≡ Some (second +ℤ pos seconds) }
    ensures offset { (start : List ℕ) (seconds : ℕ) → IsTrue (is_start start) → seconds ≤ 604800 → drop 19 (civil_text start seconds) ≡ drop 19 start }
{}
