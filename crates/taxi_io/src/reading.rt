//! Reading a file whole, or a piece of one that is begun.
ghost use Rattle.std.specs.Prelude.{◌≡◌, ◌≤◌, ◌<◌, ◌+◌, ◌++◌, ◌∷◌, ◌⊎◌, [], false, ℕ, min, length, take, IfOk, OnOk, IsErrOf, IsTrue};
ghost use Rattle.std.specs.Io.KnownBytes.{IsAtEnd};
ghost use Rattle.taxi_io.specs.Counts.{Rose};
ghost use Rattle.taxi_io.specs.Files.{IsFile, IsLonger, SameNames, BeganMore, TookFront, IsTakenWithin, Gave, IsAtEndOnly, GaveByte};

use crate::shelf::Shelf;
use crate::trouble::ReadRefused;
use std::alloc::Global;

/// The bytes that one read asks for at most.
const PIECE: usize = 4096;

/// Reads a file whole, of at most `limit` bytes. It never asks for more than one byte past the limit.
pub fn read_all<S: Shelf>(
    alloc: Global,
    shelf: &mut S,
    name: &str,
    limit: usize,
) -> Result<Vec<u8>, ReadRefused>
    requires known { S.knows shelf.old name.now }

    // So a file that is told and longer than the limit is never Ok.
    ensures whole { IfOk result (λ bytes. IsFile (S.files shelf.old) name.now bytes.items) }
    ensures within { IfOk result (λ bytes. length bytes.items ≤ limit) }
    ensures lost { OnOk result (IsAtEnd (S.rest shelf.new)) }

    // So a file that is told and within the limit is never too large.
    ensures too_large { IsErrOf result ReadRefused.TooLarge → IsLonger (S.files shelf.old) name.now limit }
    // One byte past the limit is read, and no more.
    ensures taken { IsErrOf result ReadRefused.TooLarge → TookFront (S.files shelf.old) name.now (S.rest shelf.new) (limit + 1) }
    ensures fault { IsErrOf result ReadRefused.Fault → Rose (S.faults shelf.old) (S.faults shelf.new) }
    // So whoever has taken more than the limit answers that, and does not read on.
    ensures short { IsErrOf result ReadRefused.Fault → (S.begun shelf.new ≡ false) ⊎ IsTakenWithin (S.files shelf.old) name.now (S.rest shelf.new) limit }

    ensures tried { BeganMore (S.tried shelf.old) (S.tried shelf.new) (name.now ∷ []) }
    ensures later { S.faults shelf.old ≤ S.faults shelf.new }
    ensures files { S.files shelf.new ≡ S.files shelf.old }
    ensures names { SameNames (S.knows shelf.old) (S.knows shelf.new) }
{
    shelf.begin(name)?;
    let mut bytes = Vec::new(alloc);
    let mut buffer = [0u8; PIECE];
    while bytes.len() <= limit {
        let room = (limit - bytes.len()).min(PIECE - 1) + 1;
        let count = shelf.read(&mut buffer[..room])?;
        if count == 0 {
            return Ok(bytes);
        }
        bytes.extend_from_slice(&buffer[..count])?;
    }
    Err(ReadRefused::TooLarge)
}

/// Reads the next bytes of the begun file into the front of the buffer, `left` at most, and says
/// how many: 0 at the end alone. With nothing left it reads one byte, so a byte that comes then is
/// one too many.
pub fn read_piece<S: Shelf>(
    shelf: &mut S,
    buffer: &mut [u8],
    left: usize,
) -> Result<usize, ReadRefused>
    requires begun { IsTrue (S.begun shelf.old) }
    requires room { 0 < length buffer.old }
    ensures bound { IfOk result (λ n. n ≤ min left (length buffer.old)) }
    ensures bytes { IfOk result (λ n. Gave (S.rest shelf.old) (S.rest shelf.new) (take n buffer.new)) }
    ensures end { IfOk result (IsAtEndOnly (S.rest shelf.old)) }

    ensures too_large { IsErrOf result ReadRefused.TooLarge → (left ≡ 0) × GaveByte (S.rest shelf.old) (S.rest shelf.new) }
    ensures fault { IsErrOf result ReadRefused.Fault → Rose (S.faults shelf.old) (S.faults shelf.new) }
    ensures given { IfOk result (λ n. S.given shelf.new ≡ S.given shelf.old ++ take n buffer.new ∷ []) }
    ensures kept { IsErrOf result ReadRefused.Fault → S.rest shelf.new ≡ S.rest shelf.old }
    ensures kept_too { IsErrOf result ReadRefused.Memory → S.rest shelf.new ≡ S.rest shelf.old }

    ensures begun { IsTrue (S.begun shelf.new) }
    ensures tried { S.tried shelf.new ≡ S.tried shelf.old }
    ensures later { S.faults shelf.old ≤ S.faults shelf.new }
    ensures files { S.files shelf.new ≡ S.files shelf.old }
    ensures names { SameNames (S.knows shelf.old) (S.knows shelf.new) }
{
    let room = left.max(1).min(buffer.len());
    let count = shelf.read(&mut buffer[..room])?;
    if left == 0 && count > 0 {
        return Err(ReadRefused::TooLarge);
    }
    Ok(count)
}
