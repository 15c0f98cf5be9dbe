//! The words by which an airport names what it has, for writing, and a word added to a line.
#![tactic(auto)]

ghost use Rattle.std.specs.Prelude.{◌≡◌, ◌≤◌, ◌⊎◌, ◌∷◌, ◌++◌, [], length, OnOk, OnErr};
ghost use Rattle.taxi_base.specs.Airport.{node_word};
ghost use Rattle.airport_file.specs.Words.{class_word, segment_word, word_of_arc};

use airport_file::Airport;
use taxi_base::{Arc, Class, Memory, Node, Segment};
use taxi_text::{ShortText, push_bytes};

/// The name of a class; no byte where there is no such class.
pub fn class_text(airport: &Airport, class: Class) -> ShortText
    ensures text { result ≡ class_word airport.now class }
    ensures short { length result ≤ 16 }
{
    let mut text = ShortText::new();
    if (class.0 as usize) < airport.classes().count() {
        text.push(airport.class_name(class).bytes());
    }
    text
}

/// The name of a segment; no byte where there is no such segment.
pub fn segment_text(airport: &Airport, segment: Segment) -> ShortText
    ensures text { result ≡ segment_word airport.now segment }
    ensures short { length result ≤ 16 }
{
    let mut text = ShortText::new();
    if (segment.0 as usize) < airport.graph().segments() {
        text.push(airport.segment_name(segment).bytes());
    }
    text
}

/// The name of a node; no byte where there is no such node.
pub fn node_text(airport: &Airport, node: Node) -> ShortText
    ensures text { result ≡ node_word airport.now node }
    ensures short { length result ≤ 16 }
{
    let mut text = ShortText::new();
    if (node.0 as usize) < airport.graph().nodes() {
        text.push(airport.node_name(node).bytes());
    }
    text
}

/// The word of an arc: its segment's name, and + for the forward arc or - for the backward one.
pub fn arc_text(airport: &Airport, arc: Arc) -> ShortText
    ensures text { result ≡ word_of_arc airport.now arc }
    ensures short { length result ≤ 17 }
{
    let mut text = segment_text(airport, arc.segment());
    text.push(if arc.is_forward() { b"+" } else { b"-" });
    text
}

/// Adds a word behind a blank. The only error is that memory ran out, and then the blank may stand there alone.
pub fn push_word(out: &mut Vec<u8>, word: &[u8]) -> Result<(), Memory>
    ensures ok { OnOk result (out.new.items ≡ out.old.items ++ 32 ∷ word.now) }
    ensures err { OnErr result ((out.new.items ≡ out.old.items) ⊎ (out.new.items ≡ out.old.items ++ 32 ∷ [])) }
{
    push_bytes(out, b" ")?;
    push_bytes(out, word)
}
