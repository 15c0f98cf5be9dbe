//! Names in order, each found by an index.
ghost use Rattle.std.specs.Prelude.{◌≡◌, ◌<◌, ◌≤◌, IfSome, ◌++◌, ◌∷◌, [], ℕ, length, None, Some, IsTrue, OnOk, OnErr, slice_get, AllPairs, ◌≢◌};
ghost use Rattle.std.specs.List.{AllPass};
ghost use Rattle.taxi_base.specs.Words.{is_name};
ghost use Rattle.taxi_base.specs.Airport.{place_of};
ghost use Rattle.airport_rules.specs.Places.{number_of};

use std::alloc::Global;
use std::collections::HashMap;
use std::marker::Model;
use taxi_base::{Memory, Name};

/// At most 10,000 names in the order in which they were given, all different, seen by contracts as their list.
#[derive(Drop)]
pub struct NameList {
    names: Vec<Name>,
    // The place of each name, found by the number that the name is.
    places: HashMap<u128, u32>,
}

impl Model for NameList {
    ghost use Rattle.std.specs.Prelude.{List, ℕ};
    ghost use Rattle.airport_rules.specs.Places.{ArePlaced};

    ghost Value = { List (List ℕ) };

    ghost view = { λ l. l.names.items };

    ghost invariant = { λ l. ArePlaced l.places l.names.items };
}

impl NameList {
    /// No name yet.
    pub fn new(alloc: Global) -> NameList
        ensures { result ≡ [] }
    {
        NameList {
            names: Vec::new(alloc),
            places: HashMap::new(alloc),
        }
    }

    /// How many names there are, at most 10,000.
    pub fn len(&self) -> usize
        ensures count { result ≡ length self.now }
        ensures few { length self.now ≤ 10000 }
        ensures names { AllPass is_name self.now }
        ensures differ { AllPairs ◌≢◌ self.now }
    {
        self.names.len()
    }

    /// The place of a name, counted from 0; none where it was not given.
    pub fn find(&self, name: &Name) -> Option<u32>
        ensures place { result ≡ place_of name.now self.now }
        ensures within { IfSome result (λ at. at < length self.now) }
        ensures few { IfSome result (λ at. at < 10000) }
    {
        self.places.get(&number_of(name)).copied()
    }

    /// The name at a place.
    pub fn name(&self, at: usize) -> Name
        requires { at < length self.now }
        ensures { slice_get self.now at ≡ Some result }
    {
        self.names[at]
    }

    /// Adds a name that was not given before.
    pub fn push(&mut self, name: Name) -> Result<(), Memory>
        requires fresh { place_of name self.old ≡ None }
        requires room { length self.old < 10000 }
        ensures ok { OnOk result (self.new ≡ self.old ++ name ∷ []) }
        ensures err { OnErr result (self.new ≡ self.old) }
    {
        let number = number_of(&name);
        let at = self.names.len() as u32;
        self.names.push(name)?;
        if let Err(error) = self.places.insert(number, at) {
            let _ = self.names.pop();
            return Err(Memory::from(error));
        }
        Ok(())
    }
}

/// A name as one number, whose digits in base 256 are the bytes. It is looked up and compared at once, where bytes are a loop.
fn number_of(name: &Name) -> u128
    ensures number { result ≡ number_of name.now }
    ensures name { IsTrue (is_name name.now) }
{
    let bytes = name.bytes();
    let mut number: u128 = 0;
    for byte in bytes {
        number = number * 256 + *byte as u128;
    }
    number
}
