//! The work parties, each with the span for which it shuts its segment.
ghost use Rattle.std.specs.Prelude.{◌≡◌, ◌<◌, None, IsSome, OnOk, OnErr, length, option_copied};
ghost use Rattle.taxi_base.specs.Airport.{Airport};
ghost use Rattle.taxi_base.specs.State.{party_named, parties_without, with_party};
ghost use Rattle.checked_state.specs.Flights.{state_of, HasSpansOf};

use crate::HeldFlights;
use taxi_base::{Memory, Name, Party, Span};

impl HeldFlights {
    /// The parties, by rising names.
    pub fn parties(&self) -> &[Party]
        ensures { result.now ≡ (state_of self.now).parties }
    {
        self.parties.as_slice()
    }

    /// The party of a name.
    pub fn party(&self, name: &Name) -> Option<&Party>
        ensures { option_copied result ≡ party_named name.now (state_of self.now).parties }
    {
        let place = self.parties.place_of(name).ok()?;
        Some(self.parties.at(place))
    }

    /// Puts a party in force, which shuts its segment. Where memory runs out nothing changes.
    pub fn shut(&mut self, party: Party) -> Result<(), Memory>
        requires absent { party_named party.name (state_of self.old).parties ≡ None }
        requires on { party.segment.0 < length self.old.spans.lists.items }
        ensures ok { OnOk result (state_of self.new ≡ with_party party (state_of self.old)) }
        ensures err { OnErr result (state_of self.new ≡ state_of self.old) }
        ensures spans { (airport : Airport) → HasSpansOf airport (state_of self.old) self.old → HasSpansOf airport (state_of self.new) self.new }
    {
        self.parties.prepare()?;
        self.spans.put(party.segment, span_of(&party), &party.name)?;
        let place = self.parties.place_of(&party.name).unwrap_err();
        self.parties.insert(place, party);
        Ok(())
    }

    /// Takes the party of a name out, and opens its segment again. It needs no memory.
    pub fn open(&mut self, name: &Name)
        requires at_work { IsSome (party_named name.now (state_of self.old).parties) }
        requires spans { (airport : Airport) × HasSpansOf airport (state_of self.old) self.old }
        ensures state { state_of self.new ≡ record (state_of self.old) { parties = parties_without name.now (state_of self.old).parties } }
        ensures spans { (airport : Airport) → HasSpansOf airport (state_of self.old) self.old → HasSpansOf airport (state_of self.new) self.new }
    {
        let place = self.parties.place_of(name).unwrap();
        let party = self.parties.remove(place);
        self.spans.take(party.segment, span_of(&party), &party.name);
    }
}

// The span for which a party shuts its segment.
fn span_of(party: &Party) -> Span
    ensures { result ≡ record { from = party.now.from; until = party.now.until } }
{
    Span {
        from: party.from,
        until: party.until,
    }
}
