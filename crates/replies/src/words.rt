//! What the words of an arrival or a departure name.
ghost use Rattle.std.specs.Prelude.{◌≡◌, ◌∷◌, [], Some, None, IfOk, IfErr};
ghost use Rattle.taxi_text.specs.declared.command.BatchRequest.TheVariants as requested;
ghost use Rattle.replies.specs.Named.{AreNamed};
ghost use Rattle.replies.specs.Refusals.{first_of, unknown_class, unknown_node, tests_of_words};

use airport_file::Airport;
use taxi_base::{Class, Node, Refusal};
use taxi_text::Asked;

/// The class and the nodes that the words of an arrival or a departure name.
#[derive(Clone, Copy)]
pub struct Named {
    pub class: Class,
    pub from: Node,
    pub to: Node,
}

/// What the words of an arrival name, or why they are refused: it goes from a runway to a stand.
pub fn arrival_words(airport: &Airport, asked: &Asked) -> Result<Named, Refusal>
    ensures named { IfOk result (AreNamed airport.now asked.now) }
    ensures ok { IfOk result (λ named. first_of (tests_of_words airport.now (requested.Arrival asked.now)) ≡ None) }
    ensures err { IfErr result (λ why. first_of (tests_of_words airport.now (requested.Arrival asked.now)) ≡ Some why) }
{
    let named = find_named(airport, asked)?;
    if !airport.is_runway(named.from) {
        return Err(Refusal::WrongKind);
    }
    if !airport.is_stand(named.to) {
        return Err(Refusal::WrongKind);
    }
    Ok(named)
}

/// The same of a departure, which goes from a stand to a runway.
pub fn departure_words(airport: &Airport, asked: &Asked) -> Result<Named, Refusal>
    ensures named { IfOk result (AreNamed airport.now asked.now) }
    ensures ok { IfOk result (λ named. first_of (tests_of_words airport.now (requested.Departure asked.now)) ≡ None) }
    ensures err { IfErr result (λ why. first_of (tests_of_words airport.now (requested.Departure asked.now)) ≡ Some why) }
{
    let named = find_named(airport, asked)?;
    if !airport.is_stand(named.from) {
        return Err(Refusal::WrongKind);
    }
    if !airport.is_runway(named.to) {
        return Err(Refusal::WrongKind);
    }
    Ok(named)
}

fn find_named(airport: &Airport, asked: &Asked) -> Result<Named, Refusal>
    ensures named { IfOk result (AreNamed airport.now asked.now) }
    ensures err { IfErr result (λ why. first_of (unknown_class airport.now asked.now.class ∷ unknown_node airport.now asked.now.from ∷ unknown_node airport.now asked.now.to ∷ []) ≡ Some why) }
{
    let Some(class) = airport.class_named(&asked.class) else {
        return Err(Refusal::UnknownClass);
    };
    let Some(from) = airport.node_named(&asked.from) else {
        return Err(Refusal::UnknownNode);
    };
    let Some(to) = airport.node_named(&asked.to) else {
        return Err(Refusal::UnknownNode);
    };
    Ok(Named { class, from, to })
}
