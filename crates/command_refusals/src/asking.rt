//! What an arrival or a departure asks for, or why it is refused before any search.
ghost use Rattle.std.specs.Prelude.{◌≡◌, ◌∷◌, Some, None, IfOk, IfErr};
ghost use Rattle.taxi_base.specs.declared.answers.Request.TheVariants as request;
ghost use Rattle.taxi_text.specs.declared.command.BatchRequest.TheVariants as requested;
ghost use Rattle.taxi_text.specs.declared.command.Command.TheVariants as command;
ghost use Rattle.replies.specs.Refusals.{first_of, in_force, tests_of_words, first_refusal};
ghost use Rattle.commitments.specs.Book.{Fits};
ghost use Rattle.command_refusals.specs.Named.{IsTripOf};

use crate::holders::{is_full, is_held};
use airport_file::Airport;
use commitments::Ledger;
use replies::{Named, arrival_words, departure_words};
use taxi_base::{Class, Node, Refusal, Request, Time};
use taxi_text::Asked;

/// A way that is asked for, in the airport's own terms. An arrival may begin up to `slack` seconds after `time`, a departure may
/// reach its node up to `slack` seconds before it.
#[derive(Clone, Copy, Debug, PartialEq, Eq)]
pub struct Trip {
    pub class: Class,
    pub from: Node,
    pub to: Node,
    pub time: Time,
    pub slack: Time,
}

impl Trip {
    // Between the nodes that words name, at the times that they ask for.
    fn of(named: &Named, asked: &Asked) -> Trip
        ensures { result ≡ record { class = named.now.class; from = named.now.from; to = named.now.to; time = asked.now.time; slack = asked.now.slack } }
    {
        Trip {
            class: named.class,
            from: named.from,
            to: named.to,
            time: asked.time,
            slack: asked.slack,
        }
    }

    /// What the flight of an arrival asks for.
    pub fn arrival(&self) -> Request
        ensures { result ≡ request.Arrival self.now.from self.now.to self.now.time self.now.slack }
    {
        Request::Arrival {
            from: self.from,
            to: self.to,
            time: self.time,
            hold: self.slack,
        }
    }

    /// What the flight of a departure asks for.
    pub fn departure(&self) -> Request
        ensures { result ≡ request.Departure self.now.from self.now.to self.now.time self.now.slack }
    {
        Request::Departure {
            from: self.from,
            to: self.to,
            time: self.time,
            queue: self.slack,
        }
    }
}

/// What an arrival asks for, or why it is refused: it goes from a runway to a stand.
pub fn asked_arrival(airport: &Airport, ledger: &Ledger, asked: &Asked) -> Result<Trip, Refusal>
    requires { Fits airport.now ledger.now }
    ensures named { IfOk result (IsTripOf airport.now asked.now) }
    ensures ok { IfOk result (λ trip. first_refusal airport.now ledger.now.state (command.Arrival asked.now) ≡ None) }
    ensures err { IfErr result (λ why. first_refusal airport.now ledger.now.state (command.Arrival asked.now) ≡ Some why) }
{
    let trip = arrival_trip(airport, ledger, asked)?;
    if is_full(airport, ledger) {
        return Err(Refusal::Full);
    }
    Ok(trip)
}

/// The same of a departure, which goes from a stand to a runway.
pub fn asked_departure(airport: &Airport, ledger: &Ledger, asked: &Asked) -> Result<Trip, Refusal>
    requires { Fits airport.now ledger.now }
    ensures named { IfOk result (IsTripOf airport.now asked.now) }
    ensures ok { IfOk result (λ trip. first_refusal airport.now ledger.now.state (command.Departure asked.now) ≡ None) }
    ensures err { IfErr result (λ why. first_refusal airport.now ledger.now.state (command.Departure asked.now) ≡ Some why) }
{
    let trip = departure_trip(airport, ledger, asked)?;
    if is_full(airport, ledger) {
        return Err(Refusal::Full);
    }
    Ok(trip)
}

/// What the words of an arrival name, or why they are refused, but that there is no room for one more.
pub(crate) fn arrival_trip(
    airport: &Airport,
    ledger: &Ledger,
    asked: &Asked,
) -> Result<Trip, Refusal>
    ensures named { IfOk result (IsTripOf airport.now asked.now) }
    ensures ok { IfOk result (λ trip. first_of (in_force ledger.now.state asked.now.flight ∷ tests_of_words airport.now (requested.Arrival asked.now)) ≡ None) }
    ensures err { IfErr result (λ why. first_of (in_force ledger.now.state asked.now.flight ∷ tests_of_words airport.now (requested.Arrival asked.now)) ≡ Some why) }
{
    if is_held(ledger, &asked.flight) {
        return Err(Refusal::InForce);
    }
    let named = arrival_words(airport, asked)?;
    Ok(Trip::of(&named, asked))
}

/// The same of a departure.
pub(crate) fn departure_trip(
    airport: &Airport,
    ledger: &Ledger,
    asked: &Asked,
) -> Result<Trip, Refusal>
    ensures named { IfOk result (IsTripOf airport.now asked.now) }
    ensures ok { IfOk result (λ trip. first_of (in_force ledger.now.state asked.now.flight ∷ tests_of_words airport.now (requested.Departure asked.now)) ≡ None) }
    ensures err { IfErr result (λ why. first_of (in_force ledger.now.state asked.now.flight ∷ tests_of_words airport.now (requested.Departure asked.now)) ≡ Some why) }
{
    if is_held(ledger, &asked.flight) {
        return Err(Refusal::InForce);
    }
    let named = departure_words(airport, asked)?;
    Ok(Trip::of(&named, asked))
}
