//! The work parties of a ledger, and why a segment may not be shut.
ghost use Rattle.std.specs.Prelude.{◌≡◌, ◌↔◌, ◌+◌, ◌<◌, ◌≤◌, false, Some, None, [], ◌∷◌, length, slice_get, IfNone, IfSome, OnOk};
ghost use Rattle.taxi_base.specs.declared.answers.Party.{Party as PartyRow};
ghost use Rattle.taxi_base.specs.State.{IsFeasibleHold, holder_count, has_holder, party_named, party_hold, party_step, with_party, without};
ghost use Rattle.taxi_base.specs.Faults.{hold_fault, hold_cause};
ghost use Rattle.window_store.specs.Kept.{IsApartFrom, IsClearOf, KeepsWindows, KeepsNodes, GainsRoom, DrawsWhatIsLacking};
ghost use Rattle.holder_lists.specs.Lists.{AreParties};
ghost use Rattle.commitments.specs.Book.{Fits, IsPreparedForParty};

use crate::Ledger;
use crate::holds::{forward, free_holder, hold_party, keep_rules};
use airport_file::Airport;
use std::slice;
use taxi_base::{Memory, Name, Party, Segment, Span, Step, StepCause, StepFault, Time};

impl Ledger {
    /// How many work parties are in force.
    pub fn parties(&self) -> usize
        ensures count { result ≡ length self.now.state.parties }
        ensures ordered { AreParties self.now.state.parties }
    {
        self.holders.parties.count()
    }

    /// The party at a place, by rising names.
    pub fn party_at(&self, place: usize) -> Party
        requires { place < length self.now.state.parties }
        ensures { slice_get self.now.state.parties place ≡ Some result }
    {
        self.holders.parties.at(place)
    }

    /// The party of a name.
    pub fn party(&self, name: &Name) -> Option<Party>
        ensures { result ≡ party_named name.now self.now.state.parties }
    {
        self.holders.parties.party(name)
    }

    /// Why a segment may not be shut from `from` up to `until` among the holders in force, told as of a first step. It needs
    /// no memory.
    pub fn check_hold(
        &self,
        airport: &Airport,
        segment: Segment,
        from: Time,
        until: Time,
    ) -> Option<StepFault>
        requires fits { Fits airport.now self.now }
        requires unlifted { self.now.lifted ≡ None }
        requires segment { segment.0 < length airport.now.segments }
        ensures fault { result ≡ hold_fault airport.now self.now.state (record { segment = segment; span = record { from = from; until = until } }) }
        ensures feasible { (result ≡ None) ↔ IsFeasibleHold airport.now self.now.state (record { segment = segment; span = record { from = from; until = until } }) }
    {
        let cause = self.hold_cause(airport, segment, Span { from, until })?;
        Some(StepFault { number: 1, cause })
    }

    // Why a segment may not be shut for a span, of several causes the first.
    fn hold_cause(&self, airport: &Airport, segment: Segment, span: Span) -> Option<StepCause>
        requires fits { Fits airport.now self.now }
        requires unlifted { self.now.lifted ≡ None }
        requires segment { segment.0 < length airport.now.segments }
        ensures { result ≡ hold_cause airport.now self.now.state (record { segment = segment; span = span }) }
    {
        if span.until <= span.from {
            Some(StepCause::TooFast)
        } else if airport.horizon() < span.until {
            Some(StepCause::PastHorizon)
        } else {
            self.taken_by(airport, segment, span)
        }
    }

    /// Makes room for one more party on a segment. All holders and windows stay, also where memory runs out.
    pub fn prepare_party(&mut self, airport: &Airport, segment: Segment) -> Result<(), Memory>
        requires fits { Fits airport.now self.old }
        requires segment { segment.0 < length airport.now.segments }
        ensures room { OnOk result (IsPreparedForParty airport.now segment self.new) }
        ensures state { self.new.state ≡ self.old.state }
        ensures lifted { self.new.lifted ≡ self.old.lifted }
        ensures kept { self.old.party_room ≤ self.new.party_room }
        ensures flight_room { self.new.room ≡ self.old.room }
        ensures windows { GainsRoom self.old.store self.new.store }
        ensures lacking { (party : PartyRow) → party.segment ≡ segment → DrawsWhatIsLacking airport.now.conflicts (party_step party ∷ []) self.old.store self.new.store }
        ensures fits { Fits airport.now self.new }
    {
        self.holders.parties.prepare()?;
        let step = Step {
            arc: forward(airport, segment),
            enter: 0,
            leave: 0,
        };
        keep_rules(airport);
        self.held.reserve(airport, slice::from_ref(&step))
    }

    /// Puts a party in force. It needs no memory. A window that has no second of it stays as it is.
    pub fn place(&mut self, airport: &Airport, party: Party)
        requires fits { Fits airport.now self.old }
        requires unlifted { self.old.lifted ≡ None }
        requires prepared { IsPreparedForParty airport.now party.segment self.old }
        requires absent { has_holder party.name self.old.state ≡ false }
        requires few { holder_count self.old.state < 4096 }
        requires feasible { IsFeasibleHold airport.now self.old.state (party_hold party) }
        ensures state { self.new.state ≡ with_party party self.old.state }
        ensures unlifted { self.new.lifted ≡ None }
        ensures party_room { self.new.party_room + 1 ≡ self.old.party_room }
        ensures flight_room { self.new.room ≡ self.old.room }
        ensures kept { KeepsWindows IsApartFrom airport.now.conflicts (party_hold party ∷ []) self.old.store self.new.store }
        ensures nodes { KeepsNodes self.old.store self.new.store }
        ensures fits { Fits airport.now self.new }
    {
        let step = hold_party(&mut self.held, airport, &party);
        self.holders.parties.insert(party, step);
    }

    /// Takes the party of a name out of force. It needs no memory, and there is room for it afterwards. A window that neither
    /// meets nor touches it stays as it is.
    pub fn remove(&mut self, airport: &Airport, name: &Name) -> Option<Party>
        requires fits { Fits airport.now self.old }
        requires unlifted { self.old.lifted ≡ None }
        ensures party { result ≡ party_named name.now self.old.state.parties }
        ensures state { IfSome result (λ _. self.new.state ≡ without name.now self.old.state) }
        ensures unlifted { self.new.lifted ≡ None }
        ensures unchanged { IfNone result (self.new ≡ self.old) }
        ensures prepared { IfSome result (λ party. IsPreparedForParty airport.now party.segment self.new) }
        ensures party_room { IfSome result (λ _. self.new.party_room ≡ self.old.party_room + 1) }
        ensures flight_room { self.new.room ≡ self.old.room }
        ensures kept { IfSome result (λ party. KeepsWindows IsClearOf airport.now.conflicts (party_hold party ∷ []) self.old.store self.new.store) }
        ensures nodes { KeepsNodes self.old.store self.new.store }
        ensures fits { Fits airport.now self.new }
    {
        let number = self.holders.parties.place(name)?;
        free_holder(&mut self.held, airport, &self.holders, number);
        Some(self.holders.parties.remove(number))
    }
}
