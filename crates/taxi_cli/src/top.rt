//! The call that the program makes.
ghost use Rattle.std.specs.Prelude.{◌≡◌, ◌⊎◌, ◌≤◌, ℕ, List, map, string_bytes, Some, None};
ghost use Rattle.taxi_io.specs.Counts.{Rose};
ghost use Rattle.taxi_io.specs.Files.{Files};
ghost use Rattle.program_words.specs.Verb.{FileNames, Traffic, Route, Check, Generate, Migrate, Import, IsNamed, asked_by};
ghost use Rattle.program_files.specs.Inputs.{IsInOrder};
ghost use Rattle.taxi_cli.specs.Due.{IsDueOf};
ghost use Rattle.taxi_cli.specs.Endings.{Ends, call_of};
ghost use Rattle.taxi_cli.specs.Handed.{IsInPieces};
ghost use Rattle.taxi_cli.specs.Headline.{Headline};
ghost use Rattle.taxi_cli.specs.Pace.{HaveBegun, HaveBegunFirst, KeepsPace, EndsBeforeCommands, commands_left};

use crate::checking::check;
use crate::generating::generate;
use crate::routing::route;
use program_files::{Status, write_last};
use program_words::{Verb, asked_by, usage_line};
use std::alloc::Global;
use taxi_io::{Shelf, Sink};
use text_verbs::{import, migrate};

/// Does what the words after the program's name ask for, and writes what comes of it.
/// The airport is accepted or refused before another file is begun.
pub fn taxi<S: Shelf, K: Sink>(
    alloc: Global,
    words: &[String],
    shelf: &mut S,
    out: &mut K,
) -> Status
    requires known { (name : List ℕ) → IsNamed (asked_by (map string_bytes words.now)) name → S.knows shelf.old name }

    ensures ends { Ends (call_of S.files S.faults S.given K.faults K.written (shelf.old, shelf.new) (out.old, out.new)) (asked_by (map string_bytes words.now)) result }

    // `Usage` comes exactly where the words are of no form, but for a line that can't be written. Nothing is read then.
    ensures usage { asked_by (map string_bytes words.now) ≡ None →
        (result ≡ Status.Usage) ⊎ ((result ≡ Status.WriteFault) ⊎ (result ≡ Status.Memory)) }
    ensures unread { asked_by (map string_bytes words.now) ≡ None → shelf.new ≡ shelf.old }

    // Where the files are told and nothing fails, the status is the one that is due, but for want of memory.
    ensures complete { (files : Files) → S.files shelf.old ≡ Some files →
        ¬ Rose (S.faults shelf.old) (S.faults shelf.new) → ¬ Rose (K.faults out.old) (K.faults out.new) →
        IsDueOf files (asked_by (map string_bytes words.now)) result ⊎ (result ≡ Status.Memory) }

    // With `route` it keeps the headline.
    ensures headline { (names : FileNames) → asked_by (map string_bytes words.now) ≡ Some (Route names) → Headline (call_of S.files S.faults S.given K.faults K.written (shelf.old, shelf.new) (out.old, out.new)) names result }

    // With `generate` no file is begun, and where no write fails it ends with `Done`, but for want of memory.
    ensures made { (traffic : Traffic) → asked_by (map string_bytes words.now) ≡ Some (Generate traffic) →
        (shelf.new ≡ shelf.old) × (¬ Rose (K.faults out.old) (K.faults out.new) → (result ≡ Status.Done) ⊎ (result ≡ Status.Memory)) }

    // It answers each command before it takes more of the command file.
    ensures pace { (names : FileNames) → asked_by (map string_bytes words.now) ≡ Some (Route names) →
        HaveBegun names (S.tried shelf.old) (S.tried shelf.new) → KeepsPace (call_of S.files S.faults S.given K.faults K.written (shelf.old, shelf.new) (out.old, out.new)) names (commands_left (S.files shelf.old) names (S.begun shelf.new) (S.rest shelf.new)) result }

    // Until the command file is begun it answers no command.
    ensures first { (names : FileNames) → asked_by (map string_bytes words.now) ≡ Some (Route names) →
        HaveBegunFirst names (S.tried shelf.old) (S.tried shelf.new) → EndsBeforeCommands (call_of S.files S.faults S.given K.faults K.written (shelf.old, shelf.new) (out.old, out.new)) names result }

    // It hands each block over as one piece.
    ensures handed { (names : FileNames) → asked_by (map string_bytes words.now) ≡ Some (Route names) → IsInPieces (call_of S.files S.faults S.given K.faults K.written (shelf.old, shelf.new) (out.old, out.new)) names result }

    ensures order { IsInOrder (S.files shelf.old) (asked_by (map string_bytes words.now)) (S.tried shelf.old) (S.tried shelf.new) }
    ensures reads_later { S.faults shelf.old ≤ S.faults shelf.new }
    ensures writes_later { K.faults out.old ≤ K.faults out.new }
{
    match asked_by(words) {
        Some(Verb::Route { airport, commands }) => route(alloc, airport, commands, shelf, out),
        Some(
            Verb::Check {
                airport,
                commands,
                transcript,
            },
        ) => check(alloc, airport, commands, transcript, shelf, out),
        Some(Verb::Generate(traffic)) => generate(alloc, &traffic, out),
        Some(Verb::Migrate { airport }) => migrate(alloc, airport, shelf, out),
        Some(Verb::Import { airport, schedule }) => import(alloc, airport, schedule, shelf, out),
        None => write_last(out, usage_line(), Status::Usage),
    }
}
