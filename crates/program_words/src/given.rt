//! The words that the machine gives.
ghost use Rattle.std.specs.Prelude.{◌≡◌, ◌≢◌, drop, map, string_bytes, IsOk, IsErr, IfOk, IfErr};
ghost use Rattle.std.specs.IoError.{error_kind};
ghost use Rattle.std.specs.Vec.Iter.{into_iter_items};
ghost use Rattle.program_words.specs.Given.{words_given};

use std::alloc::Global;
use std::env::Args;
use std::io;
use std::io::ErrorKind;
use taxi_base::Memory;

/// The words after the program's name, of all that the machine gave. Where it gave none, since one isn't UTF-8, they are
/// of no form, as no words are.
pub fn words_after_name(alloc: Global, given: io::Result<Args>) -> Result<Vec<String>, Memory>
    ensures words { IfOk result (λ words. map string_bytes words.items ≡ words_given given) }
    ensures memory { IfErr given (λ error. error_kind error ≡ ErrorKind.OutOfMemory → IsErr result) }
    ensures faulty { IfErr given (λ error. error_kind error ≢ ErrorKind.OutOfMemory → IsOk result) }
{
    match given {
        Ok(all) => without_first(alloc, all),
        Err(error) if error.kind() == ErrorKind::OutOfMemory => Err(Memory::told()),
        Err(_) => Ok(Vec::new(alloc)),
    }
}

// All words but the first.
fn without_first(alloc: Global, all: Args) -> Result<Vec<String>, Memory>
    ensures { IfOk result (λ words. words.items ≡ drop 1 (into_iter_items all)) }
{
    let mut rest = all;
    rest.next();
    let mut words = Vec::new(alloc);
    for word in rest {
        words.push(word)?;
    }
    Ok(words)
}
