//! What a flight would be told with one of the other holders left out.
ghost use Rattle.std.specs.Prelude.{◌≡◌, ◌++◌, List as Items, map, None, IsSome, IfOk, OnOk};
ghost use Rattle.taxi_base.specs.State.{no_holder, flight_named, party_named, without};
ghost use Rattle.commitments.specs.Book.{Fits};
ghost use Rattle.reply_reasons.specs.declared.reason.Reason.{Reason as ReasonSeen};
ghost use Rattle.reply_reasons.specs.Asking.{IsTimely};
ghost use Rattle.reply_reasons.specs.Routes.{IsBestSecond};
ghost use Rattle.reply_reasons.specs.Explained.{without_reason, AreWithout, holder_names};

use crate::reason::Reason;
use crate::searching::Search;
use crate::seconds::{Seconds, is_better, is_gain};
use commitments::Ledger;
use place_cells::SearchRoom;
use taxi_base::{List, Memory, Name, Request, Time};

impl<'a> Search<'a> {
    /// Adds for each holder in force what is found with that one left out, where it is better than the answer. Where nothing better is found
    /// with no holder at all, none is left out. The holders are as before, also after an error.
    pub(crate) fn push_left_out(
        &self,
        reasons: &mut List<Reason>,
        room: &mut SearchRoom,
        others: &mut Ledger,
        seconds: Seconds,
    ) -> Result<(), Memory>
        requires fits { Fits self.now.airport.now others.old }
        requires unlifted { others.old.lifted ≡ None }
        requires timely { IsTimely self.now.airport.now self.now.asking.now.request self.now.asking.now.way }
        requires alone { IsBestSecond self.now.airport.now self.now.asking.now no_holder seconds.alone }
        ensures reasons { OnOk result ((more : Items ReasonSeen) × AreWithout self.now.airport.now self.now.asking.now others.old.state seconds.answer (holder_names others.old.state) more × (reasons.new ≡ reasons.old ++ more)) }
        ensures state { others.new.state ≡ others.old.state }
        ensures unlifted { others.new.lifted ≡ None }
        ensures fits { Fits self.now.airport.now others.new }
    {
        if is_gain(&self.asking.request, seconds.alone, seconds.answer) {
            self.push_each_left_out(reasons, room, others, seconds.answer)
        } else {
            Ok(())
        }
    }

    // The same with each of them left out.
    fn push_each_left_out(
        &self,
        reasons: &mut List<Reason>,
        room: &mut SearchRoom,
        others: &mut Ledger,
        answer: Option<Time>,
    ) -> Result<(), Memory>
        requires fits { Fits self.now.airport.now others.old }
        requires unlifted { others.old.lifted ≡ None }
        requires timely { IsTimely self.now.airport.now self.now.asking.now.request self.now.asking.now.way }
        ensures reasons { OnOk result ((more : Items ReasonSeen) × AreWithout self.now.airport.now self.now.asking.now others.old.state answer (holder_names others.old.state) more × (reasons.new ≡ reasons.old ++ more)) }
        ensures state { others.new.state ≡ others.old.state }
        ensures unlifted { others.new.lifted ≡ None }
        ensures fits { Fits self.now.airport.now others.new }
    {
        self.push_flights_left_out(reasons, room, others, answer)?;
        self.push_parties_left_out(reasons, room, others, answer)
    }

    // The same for the flights.
    fn push_flights_left_out(
        &self,
        reasons: &mut List<Reason>,
        room: &mut SearchRoom,
        others: &mut Ledger,
        answer: Option<Time>,
    ) -> Result<(), Memory>
        requires fits { Fits self.now.airport.now others.old }
        requires unlifted { others.old.lifted ≡ None }
        requires timely { IsTimely self.now.airport.now self.now.asking.now.request self.now.asking.now.way }
        ensures reasons { OnOk result ((more : Items ReasonSeen) × AreWithout self.now.airport.now self.now.asking.now others.old.state answer (map (λ f. f.name) others.old.state.flights) more × (reasons.new ≡ reasons.old ++ more)) }
        ensures state { others.new.state ≡ others.old.state }
        ensures unlifted { others.new.lifted ≡ None }
        ensures fits { Fits self.now.airport.now others.new }
    {
        for place in 0..others.count() {
            let name = others.at(place).name;
            let second = self.second_without_flight(room, others, &name)?;
            push_gain(reasons, &self.asking.request, &name, second, answer)?;
        }
        Ok(())
    }

    // The same for the work parties.
    fn push_parties_left_out(
        &self,
        reasons: &mut List<Reason>,
        room: &mut SearchRoom,
        others: &mut Ledger,
        answer: Option<Time>,
    ) -> Result<(), Memory>
        requires fits { Fits self.now.airport.now others.old }
        requires unlifted { others.old.lifted ≡ None }
        requires timely { IsTimely self.now.airport.now self.now.asking.now.request self.now.asking.now.way }
        ensures reasons { OnOk result ((more : Items ReasonSeen) × AreWithout self.now.airport.now self.now.asking.now others.old.state answer (map (λ p. p.name) others.old.state.parties) more × (reasons.new ≡ reasons.old ++ more)) }
        ensures state { others.new.state ≡ others.old.state }
        ensures unlifted { others.new.lifted ≡ None }
        ensures fits { Fits self.now.airport.now others.new }
    {
        for place in 0..others.parties() {
            let name = others.party_at(place).name;
            let second = self.second_without_party(room, others, &name)?;
            push_gain(reasons, &self.asking.request, &name, second, answer)?;
        }
        Ok(())
    }

    // The best second with a flight left out, which is put back.
    fn second_without_flight(
        &self,
        room: &mut SearchRoom,
        others: &mut Ledger,
        name: &Name,
    ) -> Result<Option<Time>, Memory>
        requires fits { Fits self.now.airport.now others.old }
        requires unlifted { others.old.lifted ≡ None }
        requires timely { IsTimely self.now.airport.now self.now.asking.now.request self.now.asking.now.way }
        requires in_force { IsSome (flight_named name.now others.old.state.flights) }
        ensures second { IfOk result (IsBestSecond self.now.airport.now self.now.asking.now (without name.now others.old.state)) }
        ensures state { others.new.state ≡ others.old.state }
        ensures unlifted { others.new.lifted ≡ None }
        ensures fits { Fits self.now.airport.now others.new }
    {
        let flight = others.cancel(self.airport, name).unwrap();
        let second = self.best_second(room, others);
        others.commit(self.airport, flight);
        second
    }

    // The best second with a work party left out, which is put back.
    fn second_without_party(
        &self,
        room: &mut SearchRoom,
        others: &mut Ledger,
        name: &Name,
    ) -> Result<Option<Time>, Memory>
        requires fits { Fits self.now.airport.now others.old }
        requires unlifted { others.old.lifted ≡ None }
        requires timely { IsTimely self.now.airport.now self.now.asking.now.request self.now.asking.now.way }
        requires at_work { IsSome (party_named name.now others.old.state.parties) }
        ensures second { IfOk result (IsBestSecond self.now.airport.now self.now.asking.now (without name.now others.old.state)) }
        ensures state { others.new.state ≡ others.old.state }
        ensures unlifted { others.new.lifted ≡ None }
        ensures fits { Fits self.now.airport.now others.new }
    {
        let party = others.remove(self.airport, name).unwrap();
        let second = self.best_second(room, others);
        others.place(self.airport, party);
        second
    }
}

// Adds the second without a holder, where it is better than the answer.
fn push_gain(
    reasons: &mut List<Reason>,
    request: &Request,
    name: &Name,
    second: Option<Time>,
    answer: Option<Time>,
) -> Result<(), Memory>
    ensures { OnOk result (reasons.new ≡ reasons.old ++ without_reason request.now answer name.now second) }
{
    let Some(second) = second else {
        return Ok(());
    };
    if is_better(request, second, answer) {
        reasons.push(Reason::Without {
            holder: *name,
            second,
        })?;
    }
    Ok(())
}
