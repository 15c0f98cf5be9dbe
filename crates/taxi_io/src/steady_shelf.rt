//! A shelf of files in memory whose calls never fail.
ghost use Rattle.std.specs.Prelude.{◌≡◌, ◌≤◌, ◌<◌, ◌++◌, ◌∷◌, [], min, length, take, drop, is_some, unwrap_or, IfOk, IsOk, IsTrue, IsSome};
ghost use Rattle.taxi_io.specs.Files.{file_of};
ghost use Rattle.taxi_io.specs.HeldFiles.{files_of};
ghost use Rattle.taxi_io.specs.SteadyFiles.{HasFile};

use crate::memory_shelf::MemoryShelf;
use crate::shelf::Shelf;
use crate::trouble::Trouble;
use std::marker::Model;

/// Files in memory, of which a read gives so many bytes at most. Only they may be begun, and no
/// call fails. Of two files with one name the first counts.
#[derive(Drop)]
pub struct SteadyShelf {
    shelf: MemoryShelf,
}

impl Model for SteadyShelf {
    ghost use Rattle.std.specs.Prelude.{◌≡◌, []};
    ghost use Rattle.taxi_io.specs.SteadyFiles.{SteadyFiles};

    ghost Value = { SteadyFiles };

    ghost view = { λ s. record { files = s.shelf.files; piece = s.shelf.piece; rest = s.shelf.rest; tried = s.shelf.tried; given = s.shelf.given } };

    ghost invariant = { λ s. s.shelf.failing ≡ [] };
}

impl SteadyShelf {
    /// A shelf of these files, none of them begun.
    pub fn new(files: Vec<(String, Vec<u8>)>, piece: usize) -> SteadyShelf
        requires { 1 ≤ piece }
        ensures { result ≡ record { files = files_of files.items; piece = piece; rest = None; tried = []; given = [] } }
    {
        let none_failing = Vec::new(*files.allocator());
        SteadyShelf {
            shelf: MemoryShelf::new(files, piece, none_failing),
        }
    }
}

impl Shelf for SteadyShelf {
    ghost use Rattle.std.specs.Prelude.{Some, is_some};

    ghost files = { λ s. Some s.files };

    ghost begun = { λ s. is_some s.rest };

    ghost rest = { λ s. s.rest };

    ghost faults = { λ s. 0 };

    ghost knows = { HasFile };

    ghost tried = { λ s. s.tried };

    ghost given = { λ s. s.given };

    fn begin(&mut self, name: &str) -> Result<(), Trouble>
        requires { HasFile self.old name.now }
        ensures ok { IsOk result }
        ensures state { self.new ≡ record self.old { rest = file_of self.old.files name.now; tried = self.old.tried ++ name.now ∷ [] } }
    {
        self.shelf.begin(name)
    }

    fn read(&mut self, buffer: &mut [u8]) -> Result<usize, Trouble>
        requires begun { IsTrue (is_some self.old.rest) }
        requires room { 0 < length buffer.old }
        ensures ok { IsOk result }
        ensures count { IfOk result (λ n.
            n ≡ min self.old.piece (min (length buffer.old) (length (unwrap_or self.old.rest [])))) }
        ensures some { IfOk result (λ n. n ≡ 0 → unwrap_or self.old.rest [] ≡ []) }
        ensures bytes { IfOk result (λ n. buffer.new ≡ take n (unwrap_or self.old.rest []) ++ drop n buffer.old) }
        ensures state { IfOk result (λ n. self.new ≡ record self.old { rest = Some (drop n (unwrap_or self.old.rest [])); given = self.old.given ++ take n (unwrap_or self.old.rest []) ∷ [] }) }
    {
        self.shelf.read(buffer)
    }
}
