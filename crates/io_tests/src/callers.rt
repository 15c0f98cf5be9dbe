//! What a caller can show of reading and writing by their contracts alone.
ghost use Rattle.std.specs.Prelude.{◌≡◌, ◌⊎◌, ◌≤◌, ◌<◌, ◌++◌, ◌∷◌, [], ℕ, List, length, MatchResult, IfOk, OnOk, IsErrOf};
ghost use Rattle.taxi_io.specs.Counts.{Rose};
ghost use Rattle.taxi_io.specs.Files.{Files, IsFile, BeganMore, file_of};
ghost use Rattle.taxi_io.specs.SteadyFiles.{HasFile};
ghost use Rattle.taxi_io.specs.Written.{Grew};

use std::alloc::Global;
use taxi_io::{ReadRefused, Shelf, Sink, SteadyShelf, Trouble, read_all, write_all};

/// With the file told and no fault counted the limit decides, but for want of memory.
pub fn read_told<S: Shelf>(
    alloc: Global,
    shelf: &mut S,
    name: &str,
    limit: usize,
) -> Result<Vec<u8>, ReadRefused>
    requires known { S.knows shelf.old name.now }
    ensures within { (files : Files) → (file : List ℕ) →
        S.files shelf.old ≡ Some files → file_of files name.now ≡ Some file →
        ¬ Rose (S.faults shelf.old) (S.faults shelf.new) → length file ≤ limit →
        MatchResult result (λ bytes. bytes.items ≡ file) (λ e. e ≡ ReadRefused.Memory) }
    ensures longer { (files : Files) → (file : List ℕ) →
        S.files shelf.old ≡ Some files → file_of files name.now ≡ Some file →
        ¬ Rose (S.faults shelf.old) (S.faults shelf.new) → limit < length file →
        MatchResult result (λ _. ⊥) (λ e. (e ≡ ReadRefused.TooLarge) ⊎ (e ≡ ReadRefused.Memory)) }
{
    read_all(alloc, shelf, name, limit)
}

/// Two files, one after the other.
pub fn read_both<S: Shelf>(
    alloc: Global,
    shelf: &mut S,
    first: &str,
    second: &str,
) -> Result<(Vec<u8>, Vec<u8>), ReadRefused>
    requires known { (name : List ℕ) → S.knows shelf.old name }
    ensures first { IfOk result (λ files. IsFile (S.files shelf.old) first.now files.0.items) }
    ensures second { IfOk result (λ files. IsFile (S.files shelf.old) second.now files.1.items) }
    ensures fault { IsErrOf result ReadRefused.Fault → Rose (S.faults shelf.old) (S.faults shelf.new) }
    ensures tried { OnOk result (BeganMore (S.tried shelf.old) (S.tried shelf.new) (first.now ∷ second.now ∷ [])) }
{
    let one = read_all(alloc, shelf, first, 100)?;
    let other = read_all(alloc, shelf, second, 100)?;
    Ok((one, other))
}

/// Two pieces one after the other.
pub fn write_both<K: Sink>(sink: &mut K, first: &[u8], second: &[u8]) -> Result<(), Trouble>
    ensures ok { OnOk result (Grew (K.written sink.old) (K.written sink.new) (first.now ++ second.now)) }
    ensures failed { IsErrOf result Trouble.Failed → Rose (K.faults sink.old) (K.faults sink.new) }
{
    write_all(sink, first)?;
    write_all(sink, second)
}

/// A file of a shelf that never fails is read whole, but for want of memory.
pub fn read_steady(
    alloc: Global,
    shelf: &mut SteadyShelf,
    name: &str,
) -> Result<Vec<u8>, ReadRefused>
    requires known { HasFile shelf.old name.now }
    ensures whole { (file : List ℕ) → file_of shelf.old.files name.now ≡ Some file → length file ≤ 100 →
        MatchResult result (λ bytes. bytes.items ≡ file) (λ e. e ≡ ReadRefused.Memory) }
{
    read_all(alloc, shelf, name, 100)
}
