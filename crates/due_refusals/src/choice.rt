//! What a choice of nodes asks for, or why it is refused before any search.
ghost use Rattle.std.specs.Prelude.{◌≡◌, Some, None, IfOk};
ghost use Rattle.taxi_text.specs.declared.command.Command.TheVariants as command;
ghost use Rattle.checked_state.specs.Flights.{state_of};
ghost use Rattle.taxi_base.specs.Airport.{is_runway, is_stand};
ghost use Rattle.due_refusals.specs.Choice.{leads_among, choice_refused, AreNamedOr, AreAnyNamed};

use crate::asked::is_full;
use airport_file::Airport;
use checked_state::HeldFlights;
use replies::{has_no_runway, has_no_stand, nodes_named};
use std::alloc::Global;
use taxi_base::{Class, List, Memory, Node, Refusal};
use taxi_text::AskedAny;

/// What the words of a choice name, or why it is refused.
#[derive(Drop)]
pub enum NamedAny {
    Named {
        class: Class,
        from: Node,
        nodes: List<Node>,
    },
    Refused {
        why: Refusal,
    },
}

/// What the words of an arrival to one of some stands name, or why it is refused.
pub fn named_arrival_any(
    alloc: Global,
    airport: &Airport,
    held: &HeldFlights,
    asked: &AskedAny,
) -> Result<NamedAny, Memory>
    ensures { IfOk result (AreAnyNamed airport.now (state_of held.now) asked.now (command.ArrivalAny asked.now)) }
{
    let fits = leads_to_stands(airport, asked);
    named_any(alloc, airport, held, asked, fits)
}

/// The same of a departure to one of some runway nodes.
pub fn named_departure_any(
    alloc: Global,
    airport: &Airport,
    held: &HeldFlights,
    asked: &AskedAny,
) -> Result<NamedAny, Memory>
    ensures { IfOk result (AreAnyNamed airport.now (state_of held.now) asked.now (command.DepartureAny asked.now)) }
{
    let fits = leads_to_runways(airport, asked);
    named_any(alloc, airport, held, asked, fits)
}

// Whether it leads from a runway node to stands.
fn leads_to_stands(airport: &Airport, asked: &AskedAny) -> bool
    ensures { result ≡ leads_among is_runway is_stand airport.now asked.now }
{
    airport.has_runway(&asked.from) && !has_no_stand(airport, asked.nodes.as_slice())
}

// Whether it leads from a stand to runway nodes.
fn leads_to_runways(airport: &Airport, asked: &AskedAny) -> bool
    ensures { result ≡ leads_among is_stand is_runway airport.now asked.now }
{
    airport.has_stand(&asked.from) && !has_no_runway(airport, asked.nodes.as_slice())
}

// What the words name, or why it is refused, where `fits` says whether the nodes are of the right kinds.
fn named_any(
    alloc: Global,
    airport: &Airport,
    held: &HeldFlights,
    asked: &AskedAny,
    fits: bool,
) -> Result<NamedAny, Memory>
    ensures { IfOk result (AreNamedOr airport.now asked.now (choice_refused airport.now (state_of held.now) asked.now fits)) }
{
    if held.has_holder(&asked.flight) {
        return Ok(refused(Refusal::InForce));
    }
    let Some(class) = airport.class_named(&asked.class) else {
        return Ok(refused(Refusal::UnknownClass));
    };
    let Some(from) = airport.node_named(&asked.from) else {
        return Ok(refused(Refusal::UnknownNode));
    };
    let Some(nodes) = nodes_named(alloc, airport, asked.nodes.as_slice())? else {
        return Ok(refused(Refusal::UnknownNode));
    };
    if !fits {
        return Ok(refused(Refusal::WrongKind));
    }
    if is_full(held) {
        return Ok(refused(Refusal::Full));
    }
    Ok(NamedAny::Named { class, from, nodes })
}

fn refused(why: Refusal) -> NamedAny
    ensures { result ≡ NamedAny.Refused why }
{
    NamedAny::Refused { why }
}
