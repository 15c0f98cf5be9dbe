//! Work parties in the order of their names, with the steps that shut their segments.
ghost use Rattle.std.specs.Prelude.{◌≡◌, ◌+◌, ◌<◌, ◌≤◌, [], ◌∷◌, Some, None, length, remove, slice_get, OnOk};
ghost use Rattle.holder_lists.specs.Lists.{AreInOrder, AreParties};
ghost use Rattle.holder_lists.specs.Places.{IsPlace, IsPartyPlace};
ghost use Rattle.taxi_base.specs.declared.answers.Party.{Party as PartyRow};
ghost use Rattle.taxi_base.specs.State.{party_named, parties_with, party_step};

use std::alloc::Global;
use std::marker::Model;
use std::slice;
use taxi_base::{Memory, Name, Party, Step};

/// The work parties in force, by rising names, and in the same order the step by which each shuts its segment.
#[derive(Drop)]
pub struct PartyList {
    parties: Vec<Party>,
    steps: Vec<Step>,
}

impl Model for PartyList {
    ghost use Rattle.std.specs.Prelude.{◌≡◌, ◌-◌, map, min, vec_len, vec_capacity};
    ghost use Rattle.holder_lists.specs.Lists.{PartyListing, AreParties};
    ghost use Rattle.taxi_base.specs.State.{party_step};

    ghost Value = { PartyListing };

    ghost view = { λ l. record {
      parties = l.parties.items;
      room = min (vec_capacity l.parties - vec_len l.parties) (vec_capacity l.steps - vec_len l.steps);
    } };

    ghost invariant = { λ l. (l.steps.items ≡ map party_step l.parties.items) × AreParties l.parties.items };
}

impl PartyList {
    /// No party.
    pub fn new(alloc: Global) -> PartyList
        ensures { result ≡ record { parties = []; room = 0 } }
    {
        PartyList {
            parties: Vec::new(alloc),
            steps: Vec::new(alloc),
        }
    }

    /// How many parties are in force.
    pub fn count(&self) -> usize
        ensures count { result ≡ length self.now.parties }
        ensures ordered { AreParties self.now.parties }
    {
        self.parties.len()
    }

    /// The party at a place, by rising names.
    pub fn at(&self, place: usize) -> Party
        requires { place < length self.now.parties }
        ensures { slice_get self.now.parties place ≡ Some result }
    {
        self.parties[place]
    }

    /// The step by which the party at a place shuts its segment, as a route.
    pub fn steps(&self, place: usize) -> &[Step]
        requires { place < length self.now.parties }
        ensures { (party : PartyRow) → slice_get self.now.parties place ≡ Some party → result.now ≡ party_step party ∷ [] }
    {
        slice::from_ref(&self.steps[place])
    }

    /// The place of the party of a name.
    pub fn place(&self, name: &Name) -> Option<usize>
        ensures { IsPartyPlace self.now.parties name.now result }
    {
        place_of(&self.parties, name).ok()
    }

    /// The party of a name.
    pub fn party(&self, name: &Name) -> Option<Party>
        ensures { result ≡ party_named name.now self.now.parties }
    {
        let place = self.place(name)?;
        Some(self.at(place))
    }

    /// Makes room for one more party. The parties stay, also where memory runs out.
    pub fn prepare(&mut self) -> Result<(), Memory>
        ensures room { OnOk result (1 ≤ self.new.room) }
        ensures parties { self.new.parties ≡ self.old.parties }
        ensures kept { self.old.room ≤ self.new.room }
    {
        self.parties.reserve(1)?;
        self.steps.reserve(1)?;
        Ok(())
    }

    /// Puts a party among the others, with its step. It needs no memory.
    pub fn insert(&mut self, party: Party, step: Step)
        requires room { 1 ≤ self.old.room }
        requires absent { party_named party.name self.old.parties ≡ None }
        requires step { step ≡ party_step party }
        ensures parties { self.new.parties ≡ parties_with party self.old.parties }
        ensures room { self.new.room + 1 ≡ self.old.room }
    {
        let place = place_of(&self.parties, &party.name).unwrap_err();
        self.parties.insert(place, party).unwrap();
        self.steps.insert(place, step).unwrap();
    }

    /// Takes the party at a place out. It needs no memory, and leaves room for one party more.
    pub fn remove(&mut self, place: usize) -> Party
        requires { place < length self.old.parties }
        ensures party { slice_get self.old.parties place ≡ Some result }
        ensures parties { self.new.parties ≡ remove self.old.parties place }
        ensures room { self.new.room ≡ self.old.room + 1 }
    {
        self.steps.remove(place);
        self.parties.remove(place)
    }
}

// Where a name is, or where it would go.
fn place_of(parties: &[Party], name: &Name) -> Result<usize, usize>
    requires { AreInOrder (λ p. p.name) parties.now }
    ensures { IsPlace (λ p. p.name) parties.now name.now result }
{
    parties.binary_search_by_key(name, |p| p.name)
}
