//! The machine's files, and standard input under the name `-`. Nothing is told of their bytes.
ghost use Rattle.std.specs.Prelude.{◌≡◌, ◌≤◌, ◌<◌, ◌++◌, ◌∷◌, [], length, take, is_ok, is_err, IfOk, OnOk, OnErr, IsTrue};
ghost use Rattle.std.specs.Io.{ReadsAtMost};
ghost use Rattle.std.specs.Io.KnownBytes.{ReadConsumes};
ghost use Rattle.taxi_io.specs.Calls.{faults_after};
ghost use Rattle.taxi_io.specs.Troubles.{answer_for};
ghost use Rattle.taxi_io.specs.ShelfOfMachine.{Nothing, is_begun, source_of, left_in, source_named};

use crate::history::History;
use crate::shelf::Shelf;
use crate::trouble::Trouble;
use std::io::Read;
use std::marker::Model;
use std::rt::Files;
use std::{fs, io};

/// The name that stands for standard input.
const STANDARD_INPUT: &str = "-";

// Where the begun file's bytes come from.
#[derive(Drop)]
enum Source<F, I> {
    Nothing,
    Opened(F),
    StandardInput(I),
}

// One read of what is begun. An error is handed on, an interruption like any other.
fn read_once<F: Read, I: Read>(source: &mut Source<F, I>, buffer: &mut [u8]) -> io::Result<usize>
    requires { IsTrue (is_begun (source_of source.old)) }
    ensures bound { ReadsAtMost result buffer.new }
    ensures left { ReadConsumes (left_in F.remaining I.remaining source.old) (left_in F.remaining I.remaining source.new) result buffer.new }
    ensures source { source_of source.new ≡ source_of source.old }
{
    match source {
        Source::Nothing => unreachable!(),
        Source::Opened(file) => file.read(buffer),
        Source::StandardInput(input) => input.read(buffer),
    }
}

/// Files of the machine by their paths; the name `-` is standard input.
/// Each call that fails counts as a fault, one for want of memory among them.
#[derive(Drop)]
pub struct FileShelf<'a, R: Files + Input> {
    rt: &'a R,
    source: Source<R::File, R::Reader>,
    faults: u64,
    tried: History,
    given: History,
}

impl<'a, R: Files + Input> Model for FileShelf<'a, R> {
    ghost use Rattle.taxi_io.specs.ShelfOfMachine.{ShelfOfMachine};

    ghost Value = { ShelfOfMachine };

    ghost use Rattle.taxi_io.specs.ShelfOfMachine.{source_of, left_in};

    ghost view = { λ s. record {
      begun = source_of s.source;
      left = left_in R.File.remaining R.Reader.remaining s.source;
      faults = s.faults;
      tried = s.tried.items;
      given = s.given.items;
    } };
}

impl<'a, R: Files + Input> FileShelf<'a, R> {
    /// A shelf with nothing begun.
    pub fn new(rt: &'a R) -> FileShelf<'a, R>
        ensures { result ≡ record { begun = Nothing; left = None; faults = 0; tried = []; given = [] } }
    {
        FileShelf {
            rt,
            source: Source::Nothing,
            faults: 0,
            tried: History::new(),
            given: History::new(),
        }
    }

    // The answer to what the machine said; an error is counted, an interruption like any other.
    fn counted<T: Drop>(&mut self, outcome: io::Result<T>) -> Result<T, Trouble>
        ensures answer { result ≡ answer_for outcome }
        ensures begun { self.new.begun ≡ self.old.begun }
        ensures left { self.new.left ≡ self.old.left }
        ensures tried { self.new.tried ≡ self.old.tried }
        ensures given { self.new.given ≡ self.old.given }
        ensures faults { self.new.faults ≡ faults_after (is_err outcome) self.old.faults }
        ensures later { self.old.faults ≤ self.new.faults }
    {
        match outcome {
            Ok(value) => Ok(value),
            Err(error) => {
                self.faults = self.faults.saturating_add(1);
                Err(Trouble::from(error))
            }
        }
    }
}

impl<'a, R: Files + Input> Shelf for FileShelf<'a, R> {
    ghost use Rattle.std.specs.Prelude.{None};

    ghost files = { λ s. None };

    ghost begun = { λ s. is_begun s.begun };

    ghost rest = { λ s. None };

    ghost faults = { λ s. s.faults };

    ghost knows = { λ s name. Unit {0} };

    ghost tried = { λ s. s.tried };

    ghost given = { λ s. s.given };

    fn begin(&mut self, name: &str) -> Result<(), Trouble>
        ensures begun { is_begun self.new.begun ≡ is_ok result }
        ensures source { OnOk result (self.new.begun ≡ source_named name.now) }
        ensures tried { self.new.tried ≡ self.old.tried ++ name.now ∷ [] }
        ensures given { self.new.given ≡ self.old.given }
        ensures faults { self.new.faults ≡ faults_after (is_err result) self.old.faults }
        ensures later { self.old.faults ≤ self.new.faults }
    {
        self.tried = self.tried.then(&name.as_bytes());
        self.source = Source::Nothing;
        if name == STANDARD_INPUT {
            self.source = Source::StandardInput(self.rt.reader());
            return Ok(());
        }
        let opened = fs::open(self.rt, name);
        let file = self.counted(opened)?;
        self.source = Source::Opened(file);
        Ok(())
    }

    fn read(&mut self, buffer: &mut [u8]) -> Result<usize, Trouble>
        requires begun { IsTrue (is_begun self.old.begun) }
        ensures bound { IfOk result (λ n. n ≤ length buffer.new) }
        ensures begun { IsTrue (is_begun self.new.begun) }
        ensures source { self.new.begun ≡ self.old.begun }
        // What is known to be left loses what is given, nothing at an error, and 0 says that nothing is left.
        ensures left { ReadConsumes self.old.left self.new.left result buffer.new }
        ensures tried { self.new.tried ≡ self.old.tried }
        ensures given { IfOk result (λ n. self.new.given ≡ self.old.given ++ take n buffer.new ∷ []) }
        ensures kept { OnErr result (self.new.given ≡ self.old.given) }
        ensures faults { self.new.faults ≡ faults_after (is_err result) self.old.faults }
        ensures later { self.old.faults ≤ self.new.faults }
    {
        let outcome = read_once(&mut self.source, buffer);
        let count = self.counted(outcome)?;
        self.given = self.given.then(&&buffer[..count]);
        Ok(count)
    }
}
