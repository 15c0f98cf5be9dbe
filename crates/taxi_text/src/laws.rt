//! Laws of the words that are written and read again.
ghost use Rattle.std.specs.Prelude.{◌≡◌, ◌<◌, ◌^◌, ◌↔◌, ◌∷◌, ◌++◌, ℕ, Bool, IsTrue, List, Some, None, decimal};
ghost use Rattle.taxi_base.specs.Words.{is_name};
ghost use Rattle.taxi_text.specs.Fields.{number_of, arc_word, arc_word_of};
ghost use Rattle.taxi_text.specs.FirstLines.{first_line_of, behind_first_line, last_line_of, only_line};
ghost use Rattle.taxi_text.specs.Lines.{lines_of};

/// The digits that `push_number` writes of a number of at most seven digits are read as that number.
pub fn numbers_are_read_again()
    ensures { (n : ℕ) → n < 10 ^ 7 → number_of (decimal n) ≡ Some n }
{}

/// An arc's word is read as that arc, and no other word is.
pub fn arc_words_are_read_again()
    ensures again { (segment : List ℕ) → (forward : Bool) → IsTrue (is_name segment) → arc_word_of (arc_word segment forward) ≡ Some (segment, forward) }
    ensures only { (word segment : List ℕ) → (forward : Bool) → arc_word_of word ≡ Some (segment, forward) → (word ≡ arc_word segment forward) × IsTrue (is_name segment) }
{}

/// The first line of what is kept, and then the lines behind it, are the lines of a text, whatever comes after.
/// Where no line has ended, the last line is all of them.
pub fn lines_come_in_turn()
    ensures first { (kept more line : List ℕ) → first_line_of kept ≡ Some line → lines_of (kept ++ more) ≡ line ∷ lines_of (behind_first_line kept ++ more) }
    ensures last { (kept : List ℕ) → first_line_of kept ≡ None → lines_of kept ≡ only_line (last_line_of kept) }
{}
