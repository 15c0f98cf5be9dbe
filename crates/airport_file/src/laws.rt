//! What the records of plain texts are, and what a file that is accepted gives.
ghost use Rattle.std.specs.Prelude.{◌≡◌, ◌∷◌, ◌++◌, [], ℕ, List, map, Ok};
ghost use Rattle.taxi_base.specs.Airport.{Airport, IsWellFormed};
ghost use Rattle.airport_file.specs.Reading.{records_of, airport_of};
ghost use Rattle.airport_file.specs.Plain.{IsPlainLine, ArePlainLines, text_of_lines, split_at_commas};

/// The records of ASCII lines without a double quote or a carriage return, none of them empty, are the lines, each split
/// at its commas. The last line may lack its line feed.
pub fn plain_lines()
    ensures ended { (lines : List (List ℕ)) → ArePlainLines lines → records_of (text_of_lines lines) ≡ map split_at_commas lines }
    ensures unended { (lines : List (List ℕ)) (last : List ℕ) → ArePlainLines lines → IsPlainLine last → records_of (text_of_lines lines ++ last) ≡ map split_at_commas lines ++ split_at_commas last ∷ [] }
{}

/// The airport that a file gives keeps the rules of an airport.
pub fn accepted_airports_keep_the_rules()
    ensures { (bytes : List ℕ) (airport : Airport) → airport_of bytes ≡ Ok airport → IsWellFormed airport }
{}
