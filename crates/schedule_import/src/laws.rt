//! What a command file that was imported is to the router.
ghost use Rattle.std.specs.Prelude.{◌≡◌, ℕ, ℤ, List, Some, Ok, map};
ghost use Rattle.taxi_base.specs.Airport.{Airport, IsWellFormed};
ghost use Rattle.airport_file.specs.Plain.{text_of_lines};
ghost use Rattle.taxi_text.specs.Lines.{lines_of, commands_of};
ghost use Rattle.taxi_text.specs.Commands.{command_of};
ghost use Rattle.schedule_import.specs.Answers.{lines_from};
ghost use Rattle.schedule_import.specs.Schedule.{import_of};
ghost use Rattle.schedule_import.specs.Accepted.{accepted_of};

/// Each answer is one line. The lines that the router does not skip are commands of its grammar: those of the accepted
/// rows, in order.
pub fn each_accepted_row_is_one_command()
    ensures lines { (airport : Airport) (start : ℤ) (at : ℕ) (rows : List (List (List ℕ))) → lines_of (text_of_lines (lines_from airport start at rows)) ≡ lines_from airport start at rows }
    ensures commands { (airport : Airport) (bytes text : List ℕ) → IsWellFormed airport → import_of airport bytes ≡ Ok text → map command_of (commands_of text) ≡ map Some (accepted_of airport bytes) }
{}
