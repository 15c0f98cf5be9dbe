//! What a block tells of several flights, one after the other.
ghost use Rattle.std.specs.Prelude.{◌≡◌, ◌<◌, ◌∷◌, ◌++◌, [], length, slice_get, Some, IfErr, OnOk, OnErr};
ghost use Rattle.std.specs.List.{list_all};
ghost use Rattle.replies.specs.Printable.{is_told};

use std::alloc::Global;
use std::marker::Model;
use taxi_base::{LabelRow, List, Memory, Name, Step, Time};

/// What is told of one flight.
#[derive(Drop)]
pub enum Entry {
    /// A route was found. `second` is the end of an arrival, and the pushback of a departure.
    Route {
        second: Time,
        steps: List<Step>,
        labels: List<LabelRow>,
    },
    /// No walk does what was asked for.
    NoRoute {
        labels: List<LabelRow>,
    },
    /// It is not moved, and gives way.
    Dropped,
}

/// Entries in their order, each with the name of its flight.
#[derive(Drop)]
pub struct Entries {
    entries: Vec<(Name, Entry)>,
}

impl Model for Entries {
    ghost use Rattle.std.specs.Prelude.{ℕ, List};
    ghost use Rattle.replies.specs.declared.entries.Entry.{Entry};

    ghost Value = { List (List ℕ × Entry) };

    ghost view = { λ e. e.entries.items };
}

impl Entries {
    pub fn new(alloc: Global) -> Entries
        ensures { result ≡ [] }
    {
        Entries {
            entries: Vec::new(alloc),
        }
    }

    /// Those of a list. It takes no memory.
    pub fn of(entries: Vec<(Name, Entry)>) -> Entries
        ensures { result ≡ entries.items }
    {
        Entries { entries }
    }

    /// Puts an entry at the end. After an error the entries are as before, and the new one is gone.
    pub fn push(&mut self, name: Name, entry: Entry) -> Result<(), Memory>
        ensures ok { OnOk result (self.new ≡ self.old ++ (name, entry) ∷ []) }
        ensures err { OnErr result (self.new ≡ self.old) }
    {
        self.entries.push((name, entry))?;
        Ok(())
    }

    pub fn len(&self) -> usize
        ensures { result ≡ length self.now }
    {
        self.entries.len()
    }

    /// The name and the entry at a place.
    pub fn at(&self, place: usize) -> &(Name, Entry)
        requires { place < length self.now }
        ensures { slice_get self.now place ≡ Some result.now }
    {
        &self.entries[place]
    }

    pub fn as_slice(&self) -> &[(Name, Entry)]
        ensures { result.now ≡ self.now }
    {
        self.entries.as_slice()
    }

    /// The list itself. It takes no memory.
    pub fn into_vec(self) -> Vec<(Name, Entry)>
        ensures { result.items ≡ self }
    {
        self.entries
    }
}

/// Whether something is told in each of some entries, so that none is dropped.
pub fn are_told(entries: &[(Name, Entry)]) -> bool
    ensures { result ≡ list_all is_told entries.now }
{
    entries.iter().all(|told| !matches!(told.1, Entry::Dropped))
}
