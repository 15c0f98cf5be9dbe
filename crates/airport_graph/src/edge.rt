//! A segment as an edge of the graph.
ghost use Rattle.std.specs.Prelude.{◌≡◌, ◌++◌, ◌<◌, Some, IfSome, OnOk, length, slice_get};
ghost use Rattle.taxi_base.specs.Airport.{IsWellFormed};
ghost use Rattle.airport_graph.specs.Graph.{edge_of, edge_line, seconds_word, style_word, direction_word, lesser, least_seconds};

use crate::pieces::push_pieces;
use airport_file::Airport;
use itoa::Buffer;
use taxi_base::{Arc, Class, Memory, Name, Segment, Time};
use taxi_text::ShortText;

/// A segment as an edge: the names of its ends and its own, the least of the classes' seconds on it where one has any, and
/// whether it may be taken both ways.
#[derive(Drop)]
pub(crate) struct Edge {
    pub(crate) from: Name,
    pub(crate) to: Name,
    pub(crate) name: Name,
    pub(crate) seconds: Option<Time>,
    pub(crate) both: bool,
}

/// The edge of a segment.
pub(crate) fn edge_of(airport: &Airport, segment: Segment) -> Edge
    requires number { segment.0 < length airport.now.segments }
    requires few { segment.0 < 10000 }
    requires rules { IsWellFormed airport.now }
    ensures { IfSome (slice_get airport.now.segments segment.0) (λ row. result ≡ edge_of airport.now segment row) }
{
    let graph = airport.graph();
    let forward = Arc::of(segment, true);
    Edge {
        from: airport.node_name(graph.tail(forward)),
        to: airport.node_name(graph.head(forward)),
        name: airport.segment_name(segment),
        seconds: least_seconds(airport, segment),
        both: graph.exists(Arc::of(segment, false)),
    }
}

// The least of the classes' seconds on a segment; none where no class has any.
fn least_seconds(airport: &Airport, segment: Segment) -> Option<Time>
    requires { IsWellFormed airport.now }
    ensures { result ≡ least_seconds airport.now segment }
{
    let mut least = None;
    for number in 0..airport.classes().count() as u32 {
        least = lesser(least, airport.classes().seconds(Class(number), segment));
    }
    least
}

fn lesser(one: Option<Time>, other: Option<Time>) -> Option<Time>
    ensures { result ≡ lesser one other }
{
    match (one, other) {
        (Some(a), Some(b)) => Some(a.min(b)),
        (None, b) => b,
        (a, None) => a,
    }
}

/// Writes the line of an edge.
pub(crate) fn write_edge(out: &mut Vec<u8>, edge: &Edge) -> Result<(), Memory>
    ensures { OnOk result (out.new.items ≡ out.old.items ++ edge_line edge.now) }
{
    let (from, to, name) = (edge.from, edge.to, edge.name);
    let seconds = seconds_word(edge.seconds);
    push_pieces(
        out,
        &[
            b"\"".as_slice(),
            from.bytes(),
            b"\" -> \"".as_slice(),
            to.bytes(),
            b"\" [label=\"".as_slice(),
            name.bytes(),
            seconds.bytes(),
            b"\"".as_slice(),
            style_word(edge.seconds),
            direction_word(edge.both),
            b"];\n".as_slice(),
        ],
    )
}

// The seconds after a blank; nothing where no class has any.
fn seconds_word(seconds: Option<Time>) -> ShortText
    ensures { result ≡ seconds_word seconds }
{
    let mut text = ShortText::new();
    if let Some(number) = seconds {
        let mut digits = Buffer::new();
        text.push(b" ");
        text.push(digits.format(number).as_bytes());
    }
    text
}

fn style_word(seconds: Option<Time>) -> &'static [u8]
    ensures { result.now ≡ style_word seconds }
{
    match seconds {
        Some(_) => b"",
        None => b", style=dotted",
    }
}

fn direction_word(both: bool) -> &'static [u8]
    ensures { result.now ≡ direction_word both }
{
    if both { b", dir=both" } else { b"" }
}
