//! Names and arcs in quotes.
ghost use Rattle.std.specs.Prelude.{◌≡◌, ◌≤◌, ◌∷◌, [], length};
ghost use Rattle.taxi_text.specs.Fields.{sign_of};
ghost use Rattle.airport_file.specs.Words.{class_word, segment_word, word_of_arc};
ghost use Rattle.replies.specs.Printable.{HasArc, HasSegment, HasClass};
ghost use Rattle.serde_json.specs.Written.{compact_text};
ghost use Rattle.reply_json.specs.Values.{text_value};

use airport_file::Airport;
use taxi_base::{Arc, Class, Name, Segment};
use taxi_text::ShortText;

/// A name in quotes. It has neither a quote nor a backslash, so it stands for itself.
pub(crate) fn quoted_name(name: &Name) -> ShortText
    ensures text { result ≡ compact_text (text_value name.now) }
    ensures short { length result ≤ 18 }
{
    let mut text = ShortText::new();
    text.push(b"\"");
    text.push(name.bytes());
    text.push(b"\"");
    text
}

/// The name of a segment in quotes.
pub(crate) fn quoted_segment(airport: &Airport, segment: Segment) -> ShortText
    requires { HasSegment airport.now segment }
    ensures text { result ≡ compact_text (text_value (segment_word airport.now segment)) }
    ensures short { length result ≤ 18 }
{
    quoted_name(&airport.segment_name(segment))
}

/// The name of a class in quotes.
pub(crate) fn quoted_class(airport: &Airport, class: Class) -> ShortText
    requires { HasClass airport.now class }
    ensures text { result ≡ compact_text (text_value (class_word airport.now class)) }
    ensures short { length result ≤ 18 }
{
    quoted_name(&airport.class_name(class))
}

/// The word of an arc in quotes.
pub(crate) fn quoted_arc(airport: &Airport, arc: Arc) -> ShortText
    requires { HasArc airport.now arc }
    ensures text { result ≡ compact_text (text_value (word_of_arc airport.now arc)) }
    ensures short { length result ≤ 19 }
{
    let name = airport.segment_name(arc.segment());
    let mut text = ShortText::new();
    text.push(b"\"");
    text.push(name.bytes());
    text.push(sign(arc.is_forward()));
    text
}

// The sign of a direction, and the quote behind it.
fn sign(forward: bool) -> &'static [u8]
    ensures same { result.now ≡ sign_of forward ∷ 34 ∷ [] }
    ensures short { length result.now ≡ 2 }
{
    if forward { b"+\"" } else { b"-\"" }
}
