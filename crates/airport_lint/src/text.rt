//! The lines of the advice.
ghost use Rattle.std.specs.Prelude.{◌≡◌, ◌≤◌, ◌++◌, IfOk, OnOk, codes, flat_map, length};
ghost use Rattle.taxi_base.specs.Airport.{node_word};
ghost use Rattle.airport_file.specs.Words.{class_word, segment_word, word_of_arc};
ghost use Rattle.airport_lint.specs.Text.{subject_of, matter_of, line_of, set_word, IsAdviceText};

use crate::advice::Advice;
use crate::tell::advice_of;
use airport_file::Airport;
use airport_words::{arc_text, class_text, node_text, segment_text};
use itoa::Buffer;
use std::alloc::Global;
use taxi_base::{Arc, Class, Memory, Node, Segment};
use taxi_text::{ShortText, push_bytes, push_number};

/// The advice on an airport: a line for each thing that is odd, in order, and then their number. The only error is that memory ran out.
pub fn write_advice(alloc: Global, airport: &Airport) -> Result<Vec<u8>, Memory>
    ensures { IfOk result (λ text. IsAdviceText airport.now text.items) }
{
    let told = advice_of(alloc, airport)?;
    let mut out = Vec::new(alloc);
    write_lines(&mut out, airport, told.as_slice())?;
    push_bytes(&mut out, b"done ")?;
    push_number(&mut out, told.len() as u64)?;
    push_bytes(&mut out, b"\n")?;
    Ok(out)
}

fn write_lines(out: &mut Vec<u8>, airport: &Airport, told: &[Advice]) -> Result<(), Memory>
    ensures { OnOk result (out.new.items ≡ out.old.items ++ flat_map (line_of airport.now) told.now) }
{
    for advice in told {
        write_line(out, airport, advice)?;
    }
    Ok(())
}

fn write_line(out: &mut Vec<u8>, airport: &Airport, advice: &Advice) -> Result<(), Memory>
    ensures { OnOk result (out.new.items ≡ out.old.items ++ line_of airport.now advice.now) }
{
    let subject = subject_of(airport, advice);
    let matter = matter_of(advice);
    push_bytes(out, subject.bytes())?;
    push_bytes(out, b" ")?;
    push_bytes(out, matter.bytes())?;
    push_bytes(out, b"\n")?;
    Ok(())
}

// What is odd, by its kind and its name.
fn subject_of(airport: &Airport, advice: &Advice) -> ShortText
    ensures { result ≡ subject_of airport.now advice.now }
{
    match advice {
        Advice::ClassNoSeconds(class) => about_class(airport, *class),
        Advice::ClassNoArrival(class) => about_class(airport, *class),
        Advice::ClassNoDeparture(class) => about_class(airport, *class),
        Advice::SegmentNoSeconds(segment) => about_segment(airport, *segment),
        Advice::NodeNoArrival(node) => about_node(airport, *node),
        Advice::NodeNoDeparture(node) => about_node(airport, *node),
        Advice::NodeUnused(node) => about_node(airport, *node),
        Advice::DeadEnd(arc) => about_arc(airport, *arc),
        Advice::IdleTurn(from, to) => about_turn(airport, *from, *to),
        Advice::SameSet { set, first: _ } => about_set(*set),
        Advice::NeedlessSet(set) => about_set(*set),
    }
}

// What is odd about it.
fn matter_of(advice: &Advice) -> ShortText
    ensures { result ≡ matter_of advice.now }
{
    match advice {
        Advice::ClassNoSeconds(_) => short(b"no-seconds"),
        Advice::ClassNoArrival(_) => short(b"no-arrival"),
        Advice::ClassNoDeparture(_) => short(b"no-departure"),
        Advice::SegmentNoSeconds(_) => short(b"no-seconds"),
        Advice::NodeNoArrival(_) => short(b"no-arrival"),
        Advice::NodeNoDeparture(_) => short(b"no-departure"),
        Advice::NodeUnused(_) => short(b"unused"),
        Advice::DeadEnd(_) => short(b"dead-end"),
        Advice::IdleTurn(_, _) => short(b"idle"),
        Advice::SameSet { set: _, first } => two_words(b"same ", set_text(*first).bytes()),
        Advice::NeedlessSet(_) => short(b"needless"),
    }
}

fn about_class(airport: &Airport, class: Class) -> ShortText
    ensures { result ≡ codes "class " ++ class_word airport.now class }
{
    two_words(b"class ", class_text(airport, class).bytes())
}

fn about_segment(airport: &Airport, segment: Segment) -> ShortText
    ensures { result ≡ codes "segment " ++ segment_word airport.now segment }
{
    two_words(b"segment ", segment_text(airport, segment).bytes())
}

fn about_node(airport: &Airport, node: Node) -> ShortText
    ensures { result ≡ codes "node " ++ node_word airport.now node }
{
    two_words(b"node ", node_text(airport, node).bytes())
}

fn about_arc(airport: &Airport, arc: Arc) -> ShortText
    ensures { result ≡ codes "arc " ++ word_of_arc airport.now arc }
{
    two_words(b"arc ", arc_text(airport, arc).bytes())
}

fn about_turn(airport: &Airport, from: Arc, to: Arc) -> ShortText
    ensures { result ≡ (codes "forbid " ++ word_of_arc airport.now from) ++ (codes " " ++ word_of_arc airport.now to) }
{
    let first = two_words(b"forbid ", arc_text(airport, from).bytes());
    let second = two_words(b" ", arc_text(airport, to).bytes());
    two_words(first.bytes(), second.bytes())
}

fn about_set(set: u32) -> ShortText
    ensures { result ≡ codes "conflict " ++ set_word set }
{
    two_words(b"conflict ", set_text(set).bytes())
}

fn short(word: &[u8]) -> ShortText
    requires { length word.now ≤ 64 }
    ensures { result ≡ word.now }
{
    let mut text = ShortText::new();
    text.push(word);
    text
}

fn two_words(first: &[u8], second: &[u8]) -> ShortText
    requires first { length first.now ≤ 32 }
    requires second { length second.now ≤ 32 }
    ensures { result ≡ first.now ++ second.now }
{
    let mut text = ShortText::new();
    text.push(first);
    text.push(second);
    text
}

// Sets are counted from 1.
fn set_text(set: u32) -> ShortText
    ensures text { result ≡ set_word set }
    ensures short { length result ≤ 20 }
{
    let mut digits = Buffer::new();
    let mut text = ShortText::new();
    text.push(digits.format(u64::from(set) + 1).as_bytes());
    text
}
