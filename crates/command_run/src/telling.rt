//! A run over the commands of a file, of each of which something is written.
ghost use Rattle.std.specs.Prelude.{◌≡◌, ◌+◌, ◌<◌, ◌≤◌, ◌^◌, ℕ, List, true, IfOk, IfErr, OnOk, OnErr, IsErrOf, IsTrue};
ghost use Rattle.taxi_base.specs.Airport.{Airport};
ghost use Rattle.taxi_base.specs.State.{State, no_holder};
ghost use Rattle.taxi_io.specs.Counts.{Rose};
ghost use Rattle.taxi_io.specs.Files.{SameNames};
ghost use Rattle.command_run.specs.HowFar.{IsReadWhole};
ghost use Rattle.command_run.specs.Told.{Telling, AreToldBy, IsTold, IsWholeTold, IsStoppedTold, IsPromptTold, IsHandedOn, IsCommandCut, IsLineTold, IsLineCut, block_told};

use crate::refused::RunRefused;
use std::alloc::Global;
use taxi_base::Memory;
use taxi_io::{Shelf, Sink, Trouble, read_piece, write_all};
use taxi_text::{LineReader, skipped};
use transcripts::Router;

// The bytes that one read asks for at most.
const PIECE: usize = 4096;

/// Who answers command lines over an airport, one after the other, and says what is to be written of each.
pub trait Teller {
    /// The airport, which stays.
    ghost airport: { Self → Airport };

    /// The flights and work parties in force.
    ghost state: { Self → State };

    /// What was told of the last line.
    ghost told: { Self → List ℕ };

    /// What is told of a command and the block that answers it.
    ghost telling: { Telling };

    /// Answers a line by a block, and makes what is told of it. The line is the command of this number, and the line of this number of
    /// its file. The only error is that memory ran out for what is told.
    fn tell(&mut self, command: u64, number: u64, line: &[u8]) -> Result<(), Memory>
        ensures airport { airport self.new ≡ airport self.old }
        ensures told { OnOk result (IsTold telling (airport self.old) (state self.old) (record { command = command; line = number; text = line.now }) (told self.new) (state self.new)) };

    /// What was told of the last line.
    fn told(&self) -> &[u8]
        ensures { result.now ≡ told self.now };
}

/// A router tells of each command the block that answers it.
impl<R: Router> Teller for R {
    ghost airport = { λ router. R.airport router };

    ghost state = { λ router. R.state router };

    ghost told = { λ router. R.replied router };

    ghost telling = { block_told };

    fn tell(&mut self, _command: u64, _number: u64, line: &[u8]) -> Result<(), Memory> {
        self.answer(line);
        Ok(())
    }

    fn told(&self) -> &[u8] {
        self.reply()
    }
}

/// Has a teller answer each command of the begun file at its airport, from no flight in force, as soon as its line has ended, and writes
/// what is told of it as one piece, before more of the file is read. At the end of the file a last line without a line feed is
/// answered too. Gives the number of commands.
///
/// A file has at most `limit` bytes. Where one has more, or a read fails, the commands whose lines ended before are told. Nothing of
/// this depends on how the reads cut the file.
pub fn run_told<T: Teller, S: Shelf, K: Sink>(
    alloc: Global,
    teller: &mut T,
    shelf: &mut S,
    limit: usize,
    out: &mut K,
) -> Result<u64, RunRefused>
    requires fresh { T.state teller.old ≡ no_holder }
    requires begun { IsTrue (S.begun shelf.old) }
    requires countable { limit < 2 ^ 63 }

    ensures whole { IfOk result (IsWholeTold T.telling (T.airport teller.old) limit (S.rest shelf.old, S.rest shelf.new) (K.written out.old, K.written out.new)) }
    ensures stopped { IfErr result (IsStoppedTold T.telling (T.airport teller.old) limit (S.rest shelf.old, S.rest shelf.new) (K.written out.old, K.written out.new)) }
    // Where a text can't be written whole, no read was made once its command's line had ended.
    ensures pace { IsErrOf result RunRefused.WriteFault → IsPromptTold T.telling (T.airport teller.old) (S.rest shelf.old, S.rest shelf.new) (S.given shelf.old, S.given shelf.new) (K.written out.old, K.written out.new) }
    // The teller is handed on with what the last command left, and with what was told of it.
    ensures handed_on { IfOk result (IsReadWhole (AreToldBy T.telling (T.airport teller.old) (T.told teller.old, T.told teller.new) (T.state teller.new)) limit (S.rest shelf.old, S.rest shelf.new) (K.written out.old, K.written out.new)) }
    ensures stopped_on { IfErr result (IsHandedOn (AreToldBy T.telling (T.airport teller.old) (T.told teller.old, T.told teller.new) (T.state teller.new)) limit (S.rest shelf.old, S.rest shelf.new) (K.written out.old, K.written out.new)) }
    ensures read_fault { IsErrOf result RunRefused.ReadFault → Rose (S.faults shelf.old) (S.faults shelf.new) }
    ensures write_fault { IsErrOf result RunRefused.WriteFault → Rose (K.faults out.old) (K.faults out.new) }

    ensures airport { T.airport teller.new ≡ T.airport teller.old }
    ensures begun { S.begun shelf.new ≡ true }
    ensures tried { S.tried shelf.new ≡ S.tried shelf.old }
    ensures reads_later { S.faults shelf.old ≤ S.faults shelf.new }
    ensures writes_later { K.faults out.old ≤ K.faults out.new }
    ensures files { S.files shelf.new ≡ S.files shelf.old }
    ensures names { SameNames (S.knows shelf.old) (S.knows shelf.new) }
{
    let mut reader = LineReader::new(alloc);
    let mut buffer = [0u8; PIECE];
    let mut left = limit;
    let mut number: u64 = 0;
    let mut count: u64 = 0;
    loop {
        if let Some(line) = reader.first_line() {
            number += 1;
            count += tell_line(teller, count, number, line, out)?;
            reader.drop_first();
        } else {
            let taken = read_piece(shelf, &mut buffer, left)?;
            if taken == 0 {
                break;
            }
            reader.feed(&buffer[..taken])?;
            left -= taken;
        }
    }
    if let Some(line) = reader.last_line() {
        count += tell_line(teller, count, number + 1, line, out)?;
    }
    Ok(count)
}

// Tells of the command of a line, if it holds one, and gives the number of commands: one or none. So many commands came before, and so
// many lines up to this one.
fn tell_line<T: Teller, K: Sink>(
    teller: &mut T,
    count: u64,
    number: u64,
    line: &[u8],
    out: &mut K,
) -> Result<u64, Trouble>
    requires { count + 1 < 2 ^ 64 }
    ensures told { IfOk result (λ few. IsLineTold T.telling (T.airport teller.old) (T.state teller.old) count number line.now (T.told teller.old, T.told teller.new) (K.written out.old, K.written out.new) few (T.state teller.new)) }
    ensures cut { OnErr result (IsLineCut T.telling (T.airport teller.old) (T.state teller.old) count number line.now (K.written out.old, K.written out.new)) }
    ensures cut_short { IsErrOf result Trouble.Failed → IsCommandCut T.telling (T.airport teller.old) (T.state teller.old) (record { command = count + 1; line = number; text = line.now }) (K.written out.old, K.written out.new) }
    ensures failed { IsErrOf result Trouble.Failed → Rose (K.faults out.old) (K.faults out.new) }
    ensures few { IfOk result (λ few. few ≤ 1) }
    ensures airport { T.airport teller.new ≡ T.airport teller.old }
    ensures later { K.faults out.old ≤ K.faults out.new }
{
    if skipped(line) {
        return Ok(0);
    }
    if teller.tell(count + 1, number, line).is_err() {
        return Err(Trouble::Memory);
    }
    write_all(out, teller.told())?;
    Ok(1)
}
