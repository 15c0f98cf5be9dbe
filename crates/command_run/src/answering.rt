//! A run over the commands of a file, of each of which the block is written.
ghost use Rattle.std.specs.Prelude.{◌≡◌, ◌<◌, ◌≤◌, ◌^◌, true, IfOk, IfErr, IsErrOf, IsTrue};
ghost use Rattle.taxi_base.specs.State.{no_holder};
ghost use Rattle.taxi_io.specs.Counts.{Rose};
ghost use Rattle.taxi_io.specs.Files.{SameNames};
ghost use Rattle.command_run.specs.Answered.{AreAnsweredBy, IsWholeRun, IsStopped};
ghost use Rattle.command_run.specs.HowFar.{IsReadWhole};
ghost use Rattle.command_run.specs.Told.{IsHandedOn};

use crate::refused::RunRefused;
use crate::telling::run_told;
use std::alloc::Global;
use taxi_io::{Shelf, Sink};
use transcripts::Router;

/// Has a router answer each command of the begun file at its airport, from no flight in force, as soon as its line
/// has ended, and writes the block as one piece, before more of the file is read. At the end of the file a last line without a line feed is
/// answered too. Gives the number of commands.
///
/// A file has at most `limit` bytes. Where one has more, or a read fails, the commands whose lines
/// ended before are answered. Nothing of this depends on how the reads cut the file.
pub fn run_commands<R: Router, S: Shelf, K: Sink>(
    alloc: Global,
    router: &mut R,
    shelf: &mut S,
    limit: usize,
    out: &mut K,
) -> Result<u64, RunRefused>
    requires fresh { R.state router.old ≡ no_holder }
    requires begun { IsTrue (S.begun shelf.old) }
    requires countable { limit < 2 ^ 63 }

    ensures whole { IfOk result (IsWholeRun (R.airport router.old) limit (S.rest shelf.old, S.rest shelf.new) (K.written out.old, K.written out.new)) }
    ensures stopped { IfErr result (IsStopped (R.airport router.old) limit (S.rest shelf.old, S.rest shelf.new) (S.given shelf.old, S.given shelf.new) (K.written out.old, K.written out.new)) }
    // The router is handed on with what the last command left, and with its reply.
    ensures handed_on { IfOk result (IsReadWhole (AreAnsweredBy (R.airport router.old) (R.replied router.old, R.replied router.new) (R.state router.new)) limit (S.rest shelf.old, S.rest shelf.new) (K.written out.old, K.written out.new)) }
    ensures stopped_on { IfErr result (IsHandedOn (AreAnsweredBy (R.airport router.old) (R.replied router.old, R.replied router.new) (R.state router.new)) limit (S.rest shelf.old, S.rest shelf.new) (K.written out.old, K.written out.new)) }
    ensures read_fault { IsErrOf result RunRefused.ReadFault → Rose (S.faults shelf.old) (S.faults shelf.new) }
    ensures write_fault { IsErrOf result RunRefused.WriteFault → Rose (K.faults out.old) (K.faults out.new) }

    ensures airport { R.airport router.new ≡ R.airport router.old }
    ensures begun { S.begun shelf.new ≡ true }
    ensures tried { S.tried shelf.new ≡ S.tried shelf.old }
    ensures reads_later { S.faults shelf.old ≤ S.faults shelf.new }
    ensures writes_later { K.faults out.old ≤ K.faults out.new }
    ensures files { S.files shelf.new ≡ S.files shelf.old }
    ensures names { SameNames (S.knows shelf.old) (S.knows shelf.new) }
{
    run_told(alloc, router, shelf, limit, out)
}
