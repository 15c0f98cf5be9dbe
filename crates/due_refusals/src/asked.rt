//! What an arrival or a departure asks for, or why it is refused before any search.
ghost use Rattle.std.specs.Prelude.{◌≡◌, ◌∷◌, Some, None, ◌+◌, nat_lt, nat_le, IfOk, IfErr};
ghost use Rattle.taxi_base.specs.State.{holder_count};
ghost use Rattle.taxi_text.specs.declared.command.BatchRequest.TheVariants as requested;
ghost use Rattle.taxi_text.specs.declared.command.Command.TheVariants as command;
ghost use Rattle.replies.specs.Refusals.{most_holders, first_of, in_force, tests_of_words, first_refusal};
ghost use Rattle.replies.specs.Named.{AreNamed};
ghost use Rattle.checked_state.specs.Flights.{state_of};

use airport_file::Airport;
use checked_state::HeldFlights;
use replies::{Named, arrival_words, departure_words};
use taxi_base::{MOST_HOLDERS, Refusal};
use taxi_text::Asked;

/// What the words of an arrival name, or why it is refused: it goes from a runway to a stand.
pub fn named_arrival(airport: &Airport, held: &HeldFlights, asked: &Asked) -> Result<Named, Refusal>
    ensures named { IfOk result (AreNamed airport.now asked.now) }
    ensures ok { IfOk result (λ named. first_refusal airport.now (state_of held.now) (command.Arrival asked.now) ≡ None) }
    ensures err { IfErr result (λ why. first_refusal airport.now (state_of held.now) (command.Arrival asked.now) ≡ Some why) }
{
    let named = new_arrival(airport, held, asked)?;
    if is_full(held) {
        return Err(Refusal::Full);
    }
    Ok(named)
}

/// The same of a departure, which goes from a stand to a runway.
pub fn named_departure(
    airport: &Airport,
    held: &HeldFlights,
    asked: &Asked,
) -> Result<Named, Refusal>
    ensures named { IfOk result (AreNamed airport.now asked.now) }
    ensures ok { IfOk result (λ named. first_refusal airport.now (state_of held.now) (command.Departure asked.now) ≡ None) }
    ensures err { IfErr result (λ why. first_refusal airport.now (state_of held.now) (command.Departure asked.now) ≡ Some why) }
{
    let named = new_departure(airport, held, asked)?;
    if is_full(held) {
        return Err(Refusal::Full);
    }
    Ok(named)
}

/// What the words of an arrival name, or why they are refused, but that there is no room for one more.
pub(crate) fn new_arrival(
    airport: &Airport,
    held: &HeldFlights,
    asked: &Asked,
) -> Result<Named, Refusal>
    ensures named { IfOk result (AreNamed airport.now asked.now) }
    ensures ok { IfOk result (λ named. first_of (in_force (state_of held.now) asked.now.flight ∷ tests_of_words airport.now (requested.Arrival asked.now)) ≡ None) }
    ensures err { IfErr result (λ why. first_of (in_force (state_of held.now) asked.now.flight ∷ tests_of_words airport.now (requested.Arrival asked.now)) ≡ Some why) }
{
    if held.has_holder(&asked.flight) {
        return Err(Refusal::InForce);
    }
    arrival_words(airport, asked)
}

/// The same of a departure.
pub(crate) fn new_departure(
    airport: &Airport,
    held: &HeldFlights,
    asked: &Asked,
) -> Result<Named, Refusal>
    ensures named { IfOk result (AreNamed airport.now asked.now) }
    ensures ok { IfOk result (λ named. first_of (in_force (state_of held.now) asked.now.flight ∷ tests_of_words airport.now (requested.Departure asked.now)) ≡ None) }
    ensures err { IfErr result (λ why. first_of (in_force (state_of held.now) asked.now.flight ∷ tests_of_words airport.now (requested.Departure asked.now)) ≡ Some why) }
{
    if held.has_holder(&asked.flight) {
        return Err(Refusal::InForce);
    }
    departure_words(airport, asked)
}

// No further flight or party may be in force.
pub(crate) fn is_full(held: &HeldFlights) -> bool
    ensures { result ≡ nat_le most_holders (holder_count (state_of held.now)) }
{
    held.count() >= MOST_HOLDERS
}

// So many more would be too many.
pub(crate) fn is_full_with(held: &HeldFlights, more: usize) -> bool
    ensures { result ≡ nat_lt most_holders (holder_count (state_of held.now) + more) }
{
    held.count().saturating_add(more) > MOST_HOLDERS
}
