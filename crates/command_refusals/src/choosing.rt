//! What an arrival or a departure to the best of several nodes asks for, or why it is refused before any search.
ghost use Rattle.std.specs.Prelude.{◌≡◌, ◌⊎◌, ◌∷◌, [], Some, None, false, IfOk, IfErr};
ghost use Rattle.taxi_base.specs.declared.answers.Refusal.TheVariants as refusal;
ghost use Rattle.taxi_base.specs.State.{has_holder};
ghost use Rattle.taxi_text.specs.declared.command.Command.TheVariants as command;
ghost use Rattle.replies.specs.Refusals.{first_of, in_force, unknown_class, unknown_node, unknown_node_of, first_refusal};
ghost use Rattle.commitments.specs.Book.{Fits};
ghost use Rattle.command_refusals.specs.Accepted.{IsRefused};
ghost use Rattle.command_refusals.specs.Named.{IsTripOfAny};

use crate::asking::Trip;
use crate::holders::{is_full, is_held};
use airport_file::Airport;
use commitments::Ledger;
use replies::{has_no_runway, has_no_stand, nodes_named};
use std::alloc::Global;
use taxi_base::{Class, List, Node, Refusal, Time};
use taxi_text::AskedAny;

/// A way to any of some nodes that is asked for, in the airport's own terms.
#[derive(Drop)]
pub struct TripToAny {
    pub class: Class,
    pub from: Node,
    pub nodes: List<Node>,
    pub time: Time,
    pub slack: Time,
}

impl TripToAny {
    /// The same way to one node.
    pub fn to_one(&self, to: Node) -> Trip
        ensures { result ≡ record { class = self.now.class; from = self.now.from; to = to; time = self.now.time; slack = self.now.slack } }
    {
        Trip {
            class: self.class,
            from: self.from,
            to,
            time: self.time,
            slack: self.slack,
        }
    }
}

/// What an arrival asks for, or why it is refused: it goes from a runway to one of some stands.
pub fn asked_arrival_any(
    alloc: Global,
    airport: &Airport,
    ledger: &Ledger,
    asked: &AskedAny,
) -> Result<TripToAny, Refusal>
    requires { Fits airport.now ledger.now }
    ensures named { IfOk result (IsTripOfAny airport.now asked.now) }
    ensures ok { IfOk result (λ trip. first_refusal airport.now ledger.now.state (command.ArrivalAny asked.now) ≡ None) }
    ensures err { IfErr result (IsRefused airport.now ledger.now.state (command.ArrivalAny asked.now)) }
{
    let trip = find_trip_to_any(alloc, airport, ledger, asked)?;
    if !airport.has_runway(&asked.from) {
        return Err(Refusal::WrongKind);
    }
    if has_no_stand(airport, asked.nodes.as_slice()) {
        return Err(Refusal::WrongKind);
    }
    if is_full(airport, ledger) {
        return Err(Refusal::Full);
    }
    Ok(trip)
}

/// The same of a departure, which goes from a stand to one of some runway nodes.
pub fn asked_departure_any(
    alloc: Global,
    airport: &Airport,
    ledger: &Ledger,
    asked: &AskedAny,
) -> Result<TripToAny, Refusal>
    requires { Fits airport.now ledger.now }
    ensures named { IfOk result (IsTripOfAny airport.now asked.now) }
    ensures ok { IfOk result (λ trip. first_refusal airport.now ledger.now.state (command.DepartureAny asked.now) ≡ None) }
    ensures err { IfErr result (IsRefused airport.now ledger.now.state (command.DepartureAny asked.now)) }
{
    let trip = find_trip_to_any(alloc, airport, ledger, asked)?;
    if !airport.has_stand(&asked.from) {
        return Err(Refusal::WrongKind);
    }
    if has_no_runway(airport, asked.nodes.as_slice()) {
        return Err(Refusal::WrongKind);
    }
    if is_full(airport, ledger) {
        return Err(Refusal::Full);
    }
    Ok(trip)
}

// What the words name, where the flight's name is new.
fn find_trip_to_any(
    alloc: Global,
    airport: &Airport,
    ledger: &Ledger,
    asked: &AskedAny,
) -> Result<TripToAny, Refusal>
    ensures named { IfOk result (IsTripOfAny airport.now asked.now) }
    ensures new { IfOk result (λ trip. has_holder asked.now.flight ledger.now.state ≡ false) }
    ensures err { IfErr result (λ why. (why ≡ refusal.Memory) ⊎ (first_of (in_force ledger.now.state asked.now.flight ∷ unknown_class airport.now asked.now.class ∷ unknown_node airport.now asked.now.from ∷ unknown_node_of airport.now asked.now.nodes ∷ []) ≡ Some why)) }
{
    if is_held(ledger, &asked.flight) {
        return Err(Refusal::InForce);
    }
    let Some(class) = airport.class_named(&asked.class) else {
        return Err(Refusal::UnknownClass);
    };
    let Some(from) = airport.node_named(&asked.from) else {
        return Err(Refusal::UnknownNode);
    };
    let Some(nodes) = nodes_named(alloc, airport, asked.nodes.as_slice())? else {
        return Err(Refusal::UnknownNode);
    };
    Ok(TripToAny {
        class,
        from,
        nodes,
        time: asked.time,
        slack: asked.slack,
    })
}
