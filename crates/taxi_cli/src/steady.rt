//! Runs over files and output that never fail.
ghost use Rattle.std.specs.Prelude.{◌≡◌, ◌⊎◌, ℕ, List, map, string_bytes, Some};
ghost use Rattle.taxi_base.specs.Airport.{Airport};
ghost use Rattle.taxi_text.specs.Lines.{commands_of};
ghost use Rattle.taxi_io.specs.SteadyFiles.{HasFile};
ghost use Rattle.taxi_io.specs.Written.{Grew};
ghost use Rattle.program_words.specs.Verb.{FileNames, Route, IsNamed, asked_by};
ghost use Rattle.program_files.specs.Inputs.{AreAccepted};
ghost use Rattle.taxi_cli.specs.Headline.{IsWholeAnswer};

use crate::top::taxi;
use program_files::Status;
use std::alloc::Global;
use taxi_io::{SteadyShelf, SteadySink};

/// Where no call of a file or of the output fails, the transcript of an accepted airport and of commands within their limit is
/// written whole, unless memory runs out.
pub fn taxi_over_steady_files(
    alloc: Global,
    words: &[String],
    shelf: &mut SteadyShelf,
    out: &mut SteadySink,
) -> Status
    requires known { (name : List ℕ) → IsNamed (asked_by (map string_bytes words.now)) name → HasFile shelf.old name }
    ensures ends { (names : FileNames) → asked_by (map string_bytes words.now) ≡ Some (Route names) → (airport : Airport) → (commands : List ℕ) →
        AreAccepted (Some shelf.old.files) names airport commands → (result ≡ Status.Done) ⊎ (result ≡ Status.Memory) }
    ensures done { (names : FileNames) → asked_by (map string_bytes words.now) ≡ Some (Route names) → result ≡ Status.Done →
        (text : List ℕ) × IsWholeAnswer (Some shelf.old.files) names text × Grew (record { bytes = Some out.old.written; pieces = out.old.pieces }) (record { bytes = Some out.new.written; pieces = out.new.pieces }) text }
{
    taxi(alloc, words, shelf, out)
}
