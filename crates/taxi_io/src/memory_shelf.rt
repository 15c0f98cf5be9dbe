//! A shelf of files in memory.
ghost use Rattle.std.specs.Prelude.{◌≡◌, ◌≤◌, ◌<◌, ◌+◌, ◌^◌, ◌++◌, ◌∷◌, ◌↔◌, [], min, length, take, drop, is_ok, is_some, IfOk, OnErr, IsErrOf, IsOkUnless, IsTrue, IsSome, IfSome, IfNone, option_map, slice_get};
ghost use Rattle.taxi_io.specs.Files.{file_of};
ghost use Rattle.taxi_io.specs.HeldFiles.{files_of, left_at};
ghost use Rattle.taxi_io.specs.ShelfInMemory.{fails_next, begun_file, after_begin, bytes_left, after_read};

use crate::history::History;
use crate::planned_faults::PlannedFaults;
use crate::shelf::Shelf;
use crate::trouble::Trouble;
use std::marker::Model;

/// Where reading stands: the number of a file, and how many of its bytes were read.
#[derive(Clone, Copy)]
struct Place {
    file: usize,
    read: usize,
}

/// Files in memory, of which a read gives so many bytes at most. The calls that it is told to fail do so.
/// Of two files with one name the first counts.
#[derive(Drop)]
pub struct MemoryShelf {
    files: Vec<(String, Vec<u8>)>,
    piece: usize,
    plan: PlannedFaults,
    begun: Option<Place>,
    tried: History,
    given: History,
}

impl Model for MemoryShelf {
    ghost use Rattle.std.specs.Prelude.{◌≤◌};
    ghost use Rattle.taxi_io.specs.ShelfInMemory.{ShelfInMemory};

    ghost Value = { ShelfInMemory };

    ghost use Rattle.taxi_io.specs.HeldFiles.{files_of, left_of};

    ghost view = { λ s. record {
      files = files_of s.files.items;
      piece = s.piece;
      failing = s.plan.failing.items;
      calls = s.plan.calls;
      faults = s.plan.faults;
      rest = left_of s.files.items s.begun;
      tried = s.tried.items;
      given = s.given.items;
    } };

    ghost invariant = { λ s. 1 ≤ s.piece };
}

impl MemoryShelf {
    /// A shelf of these files, none of them begun. The calls of `begin` and `read` are numbered
    /// together from 1, and those in `failing` will fail.
    pub fn new(files: Vec<(String, Vec<u8>)>, piece: usize, failing: Vec<u32>) -> MemoryShelf
        requires { 1 ≤ piece }
        ensures { result ≡ record {
          files = files_of files.items;
          piece = piece;
          failing = failing.items;
          calls = 0;
          faults = 0;
          rest = None;
          tried = [];
          given = [];
        } }
    {
        MemoryShelf {
            files,
            piece,
            plan: PlannedFaults::new(failing),
            begun: None,
            tried: History::new(),
            given: History::new(),
        }
    }
}

// The number of the first file of this name.
fn find_file(files: &[(String, Vec<u8>)], name: &str) -> Option<usize>
    ensures found { IfSome result (λ i. (i < length files.now)
        × (file_of (files_of files.now) name.now ≡ option_map (λ f. f.1.items) (slice_get files.now i))) }
    ensures none { IfNone result (file_of (files_of files.now) name.now ≡ None) }
{
    for (i, file) in files.iter().enumerate() {
        if file.0.as_str() == name {
            return Some(i);
        }
    }
    None
}

// The bytes from a place on.
fn rest_at(files: &[(String, Vec<u8>)], place: Place) -> &[u8]
    requires { IsSome (left_at files.now place) }
    ensures bytes { left_at files.now place ≡ Some result.now }
    ensures fits { place.read + length result.now < 2 ^ 64 }
{
    let bytes = files[place.file].1.as_slice();
    &bytes[place.read.min(bytes.len())..]
}

// Copies the front of some bytes into a buffer, at most `piece` bytes and as many as fit, and says how many.
fn copy_front(bytes: &[u8], piece: usize, buffer: &mut [u8]) -> usize
    ensures count { result ≡ min piece (min (length buffer.old) (length bytes.now)) }
    ensures bytes { buffer.new ≡ take result bytes.now ++ drop result buffer.old }
{
    let count = piece.min(buffer.len().min(bytes.len()));
    buffer[..count].copy_from_slice(&bytes[..count]);
    count
}

impl Shelf for MemoryShelf {
    ghost use Rattle.std.specs.Prelude.{Some, is_some};

    ghost files = { λ s. Some s.files };

    ghost begun = { λ s. is_some s.rest };

    ghost rest = { λ s. s.rest };

    ghost faults = { λ s. s.faults };

    ghost knows = { λ s name. Unit {0} };

    ghost tried = { λ s. s.tried };

    ghost given = { λ s. s.given };

    fn begin(&mut self, name: &str) -> Result<(), Trouble>
        ensures state { self.new ≡ after_begin self.old name.now }
        ensures answer { is_ok result ≡ is_some (begun_file self.old name.now) }
        ensures failed { IsOkUnless result Trouble.Failed }
        ensures later { self.old.faults ≤ self.new.faults }
    {
        self.tried = self.tried.then(&name.as_bytes());
        self.begun = None;
        if self.plan.call_fails() {
            return Err(Trouble::Failed);
        }
        match find_file(self.files.as_slice(), name) {
            Some(file) => {
                self.begun = Some(Place { file, read: 0 });
                Ok(())
            }
            None => {
                self.plan.count_fault();
                Err(Trouble::Failed)
            }
        }
    }

    fn read(&mut self, buffer: &mut [u8]) -> Result<usize, Trouble>
        requires begun { IsTrue (is_some self.old.rest) }
        requires room { 0 < length buffer.old }
        ensures count { IfOk result (λ n.
            n ≡ min self.old.piece (min (length buffer.old) (length (bytes_left self.old)))) }
        ensures some { IfOk result (λ n. n ≡ 0 → bytes_left self.old ≡ []) }
        ensures bytes { IfOk result (λ n. buffer.new ≡ take n (bytes_left self.old) ++ drop n buffer.old) }
        ensures ok { IfOk result (λ n. self.new ≡ after_read self.old (drop n (bytes_left self.old)) (self.old.given ++ take n (bytes_left self.old) ∷ [])) }
        ensures refused { OnErr result (self.new ≡ after_read self.old (bytes_left self.old) self.old.given) }
        ensures untouched { OnErr result (buffer.new ≡ buffer.old) }
        ensures listed { IsErrOf result Trouble.Failed ↔ IsTrue (fails_next self.old) }
        ensures failed { IsOkUnless result Trouble.Failed }
        ensures later { self.old.faults ≤ self.new.faults }
    {
        if self.plan.call_fails() {
            return Err(Trouble::Failed);
        }
        let Some(place) = self.begun else {
            unreachable!();
        };
        let rest = rest_at(self.files.as_slice(), place);
        let count = copy_front(rest, self.piece, buffer);
        self.given = self.given.then(&&rest[..count]);
        self.begun = Some(Place {
            file: place.file,
            read: place.read + count,
        });
        Ok(count)
    }
}
