//! Work parties by rising names.
ghost use Rattle.checked_state.specs.Order.{ArePartiesInOrder};

use std::alloc::Global;
use taxi_base::{Memory, Name, Party};

/// Work parties, by rising names always.
#[derive(Drop)]
pub(crate) struct PartyList {
    parties: Vec<Party>,
    pub ghost ordered: { ArePartiesInOrder parties.items },
}

impl PartyList {
    ghost use Rattle.std.specs.Prelude.{◌≡◌, ◌<◌, [], Err, IfOk, OnOk, length, slice_index_or, vec_len, vec_capacity};
    ghost use Rattle.std.specs.List.{insert, remove};
    ghost use Rattle.checked_state.specs.Order.{IsPlace};
    ghost use Rattle.checked_state.specs.Flights.{parties_of};

    /// No party.
    pub(crate) fn new(alloc: Global) -> PartyList
        ensures { parties_of result ≡ [] }
    {
        PartyList {
            parties: Vec::new(alloc),
        }
    }

    /// The same parties once more.
    pub(crate) fn copy(&self) -> Result<PartyList, Memory>
        ensures { IfOk result (λ copy. parties_of copy ≡ parties_of self.now) }
    {
        let alloc = *self.parties.allocator();
        let parties = Vec::from_slice(alloc, &self.parties)?;
        Ok(PartyList { parties })
    }

    /// The parties, by rising names.
    pub(crate) fn as_slice(&self) -> &[Party]
        ensures { result.now ≡ parties_of self.now }
    {
        &self.parties
    }

    /// The party at a place.
    pub(crate) fn at(&self, place: usize) -> &Party
        requires { place < length (parties_of self.now) }
        ensures { result.now ≡ slice_index_or (parties_of self.now) place result.now }
    {
        &self.parties[place]
    }

    /// The place of a name, or where it would go.
    pub(crate) fn place_of(&self, name: &Name) -> Result<usize, usize>
        ensures { IsPlace (λ p. p.name) (parties_of self.now) name.now result }
    {
        self.parties.binary_search_by_key(name, |party| party.name)
    }

    /// Makes room for one more party. The parties stay, also where memory runs out.
    pub(crate) fn prepare(&mut self) -> Result<(), Memory>
        ensures room { OnOk result (vec_len self.new.parties < vec_capacity self.new.parties) }
        ensures parties { parties_of self.new ≡ parties_of self.old }
    {
        self.parties.reserve(1)?;
        Ok(())
    }

    /// Puts a party in at the place where its name goes. There is room for it, so it needs no memory.
    pub(crate) fn insert(&mut self, place: usize, party: Party)
        requires room { vec_len self.old.parties < vec_capacity self.old.parties }
        requires gap { IsPlace (λ p. p.name) (parties_of self.old) party.name (Err place) }
        ensures { parties_of self.new ≡ insert (parties_of self.old) place party }
    {
        self.parties.insert(place, party).unwrap();
    }

    /// Takes the party at a place out.
    pub(crate) fn remove(&mut self, place: usize) -> Party
        requires { place < length (parties_of self.old) }
        ensures value { result ≡ slice_index_or (parties_of self.old) place result }
        ensures items { parties_of self.new ≡ remove (parties_of self.old) place }
    {
        self.parties.remove(place)
    }
}
