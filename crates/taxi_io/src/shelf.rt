//! Files that are begun by name and read a piece at a time.
ghost use Rattle.std.specs.Prelude.{◌≡◌, ◌<◌, ◌≤◌, ◌∷◌, ◌++◌, [], ℕ, List, Option, Bool, length, take, is_ok, IfOk, OnOk, OnErr, IsErrOf, IsTrue};
ghost use Rattle.taxi_io.specs.Counts.{Rose};
ghost use Rattle.taxi_io.specs.Files.{Files, Begins, Gave, IsAtEndOnly, SameNames, BeganMore};

use crate::trouble::Trouble;

/// Files by name, one of which is begun at a time.
pub trait Shelf {
    /// The files, where they are told.
    ghost files: { Self → Option Files };

    /// Whether a file is begun.
    ghost begun: { Self → Bool };

    /// What the begun file has left, told where the files are.
    ghost rest: { Self → Option (List ℕ) };

    /// How often a call has failed.
    ghost faults: { Self → ℕ };

    /// Whether a file of this name may be begun.
    ghost knows: { Self → List ℕ → Type 0 };

    /// The names that were given to `begin` so far, in order.
    ghost tried: { Self → List (List ℕ) };

    /// The pieces that reads gave so far, in order; an empty one told the end of a file.
    ghost given: { Self → List (List ℕ) };

    /// Begins a file at its first byte. A refusal leaves nothing begun.
    fn begin(&mut self, name: &str) -> Result<(), Trouble>
        requires known { knows self.old name.now }
        ensures begun { begun self.new ≡ is_ok result }
        ensures whole { OnOk result (Begins (files self.old) name.now (rest self.new)) }
        ensures tried { BeganMore (tried self.old) (tried self.new) (name.now ∷ []) }
        ensures given { given self.new ≡ given self.old }
        ensures failed { IsErrOf result Trouble.Failed → Rose (faults self.old) (faults self.new) }
        ensures later { faults self.old ≤ faults self.new }
        ensures files { files self.new ≡ files self.old }
        ensures names { SameNames (knows self.old) (knows self.new) };

    /// Reads the next bytes of the begun file into the front of the buffer, and says how many:
    /// 0 at the end alone.
    fn read(&mut self, buffer: &mut [u8]) -> Result<usize, Trouble>
        requires begun { IsTrue (begun self.old) }
        requires room { 0 < length buffer.old }
        ensures bound { IfOk result (λ n. n ≤ length buffer.new) }
        ensures bytes { IfOk result (λ n. Gave (rest self.old) (rest self.new) (take n buffer.new)) }
        ensures end { IfOk result (IsAtEndOnly (rest self.old)) }
        ensures given { IfOk result (λ n. given self.new ≡ given self.old ++ take n buffer.new ∷ []) }
        ensures kept { OnErr result ((rest self.new ≡ rest self.old) × (given self.new ≡ given self.old)) }
        ensures begun { IsTrue (begun self.new) }
        ensures tried { tried self.new ≡ tried self.old }
        ensures failed { IsErrOf result Trouble.Failed → Rose (faults self.old) (faults self.new) }
        ensures later { faults self.old ≤ faults self.new }
        ensures files { files self.new ≡ files self.old }
        ensures names { SameNames (knows self.old) (knows self.new) };
}
