//! An airport's records, in the order of its canonical text.
ghost use Rattle.std.specs.Prelude.{◌≡◌, ◌∷◌, ◌<◌, ◌/◌, [], All, Ok, IfOk, IfSome, OnOk, codes, length, map, slice_get};
ghost use Rattle.csv.specs.Records.{fields_of};
ghost use Rattle.taxi_base.specs.Airport.{IsWellFormed};
ghost use Rattle.airport_file.specs.Reading.{airport_of};
ghost use Rattle.airport_file.specs.Words.{segment_word, word_of_arc};
ghost use Rattle.airport_text.specs.Canonical.{canonical_text, kind_word, direction_word, first_record, horizon_record, node_record, class_record, segment_record, time_record, times_on, time_records, clearance_record, clearance_records, forbid_record, conflict_record};
ghost use Rattle.airport_text.specs.Written.{and_records, record_if_any};

use crate::records::RecordWriter;
use airport_file::Airport;
use csv::ByteRecord;
use itoa::Buffer;
use std::alloc::Global;
use taxi_base::{Arc, Class, Kind, Memory, Node, Segment};
use taxi_text::ShortText;

/// The airport's canonical text, which reads as the airport again. The only error is that memory ran out.
pub fn write_airport(alloc: Global, airport: &Airport) -> Result<Vec<u8>, Memory>
    ensures text { IfOk result (λ text. text.items ≡ canonical_text airport.now) }
    ensures again { IfOk result (λ text. airport_of text.items ≡ Ok airport.now) }
{
    let mut records = RecordWriter::new(alloc);
    write_first(&mut records)?;
    write_horizon(&mut records, airport)?;
    write_nodes(&mut records, airport)?;
    write_classes(&mut records, airport)?;
    write_segments(&mut records, airport)?;
    write_times(&mut records, airport)?;
    write_clearances(&mut records, airport)?;
    write_turns(&mut records, airport)?;
    write_conflicts(alloc, &mut records, airport)?;
    records.finish()
}

fn write_first(records: &mut RecordWriter) -> Result<(), Memory>
    ensures { OnOk result (records.new ≡ and_records records.old (first_record ∷ [])) }
{
    records.write(&[b"taxi-airport".as_slice(), b"2".as_slice()])
}

fn write_horizon(records: &mut RecordWriter, airport: &Airport) -> Result<(), Memory>
    ensures text { OnOk result (records.new ≡ and_records records.old (horizon_record airport.now ∷ [])) }
    ensures rules { IsWellFormed airport.now }
{
    let horizon = airport.horizon();
    let mut digits = Buffer::new();
    records.write(&[b"horizon".as_slice(), digits.format(horizon).as_bytes()])
}

fn write_nodes(records: &mut RecordWriter, airport: &Airport) -> Result<(), Memory>
    ensures { OnOk result (records.new ≡ and_records records.old (map node_record airport.now.nodes)) }
{
    for number in 0..airport.graph().nodes() as u32 {
        write_node(records, airport, Node(number))?;
    }
    Ok(())
}

fn write_node(records: &mut RecordWriter, airport: &Airport, node: Node) -> Result<(), Memory>
    requires { node.0 < length airport.now.nodes }
    ensures { IfSome (slice_get airport.now.nodes node.0) (λ row. OnOk result (records.new ≡ and_records records.old (node_record row ∷ []))) }
{
    let name = airport.node_name(node);
    let kind = airport.kind(node);
    records.write(&[b"node".as_slice(), name.bytes(), kind_word(kind)])
}

fn kind_word(kind: Kind) -> &'static [u8]
    ensures { result.now ≡ kind_word kind }
{
    match kind {
        Kind::Runway => b"runway",
        Kind::Junction => b"junction",
        Kind::Stand => b"stand",
    }
}

fn write_classes(records: &mut RecordWriter, airport: &Airport) -> Result<(), Memory>
    requires { IsWellFormed airport.now }
    ensures { OnOk result (records.new ≡ and_records records.old (map class_record airport.now.classes)) }
{
    for number in 0..airport.classes().count() as u32 {
        write_class(records, airport, Class(number))?;
    }
    Ok(())
}

fn write_class(records: &mut RecordWriter, airport: &Airport, class: Class) -> Result<(), Memory>
    requires { class.0 < length airport.now.classes }
    ensures { IfSome (slice_get airport.now.classes class.0) (λ row. OnOk result (records.new ≡ and_records records.old (class_record row ∷ []))) }
{
    let name = airport.class_name(class);
    records.write(&[b"class".as_slice(), name.bytes()])
}

fn write_segments(records: &mut RecordWriter, airport: &Airport) -> Result<(), Memory>
    ensures { OnOk result (records.new ≡ and_records records.old (map (segment_record airport.now) airport.now.segments)) }
{
    for number in 0..airport.graph().segments() as u32 {
        write_segment(records, airport, Segment(number))?;
    }
    Ok(())
}

fn write_segment(
    records: &mut RecordWriter,
    airport: &Airport,
    segment: Segment,
) -> Result<(), Memory>
    requires number { segment.0 < length airport.now.segments }
    requires few { segment.0 < 10000 }
    ensures { IfSome (slice_get airport.now.segments segment.0) (λ row. OnOk result (records.new ≡ and_records records.old (segment_record airport.now row ∷ []))) }
{
    let graph = airport.graph();
    let forward = Arc::of(segment, true);
    let backward = Arc::of(segment, false);
    let name = airport.segment_name(segment);
    let from = airport.node_name(graph.tail(forward));
    let to = airport.node_name(graph.head(forward));
    let direction = direction_word(graph.exists(backward));
    records.write(&[
        b"segment".as_slice(),
        name.bytes(),
        from.bytes(),
        to.bytes(),
        direction,
    ])
}

fn direction_word(both: bool) -> &'static [u8]
    ensures { result.now ≡ direction_word both }
{
    if both { b"both" } else { b"one" }
}

fn write_times(records: &mut RecordWriter, airport: &Airport) -> Result<(), Memory>
    requires { IsWellFormed airport.now }
    ensures { OnOk result (records.new ≡ and_records records.old (time_records airport.now)) }
{
    for number in 0..airport.graph().segments() as u32 {
        write_times_on(records, airport, Segment(number))?;
    }
    Ok(())
}

fn write_times_on(
    records: &mut RecordWriter,
    airport: &Airport,
    segment: Segment,
) -> Result<(), Memory>
    requires rules { IsWellFormed airport.now }
    requires segment { segment.0 < length airport.now.segments }
    ensures { OnOk result (records.new ≡ and_records records.old (times_on airport.now segment.0)) }
{
    for number in 0..airport.classes().count() as u32 {
        write_time(records, airport, segment, Class(number))?;
    }
    Ok(())
}

fn write_time(
    records: &mut RecordWriter,
    airport: &Airport,
    segment: Segment,
    class: Class,
) -> Result<(), Memory>
    requires segment { segment.0 < length airport.now.segments }
    requires class { class.0 < length airport.now.classes }
    ensures { OnOk result (records.new ≡ and_records records.old (record_if_any (time_record airport.now segment class))) }
{
    let Some(seconds) = airport.classes().seconds(class, segment) else {
        return Ok(());
    };
    let mut digits = Buffer::new();
    let segment = airport.segment_name(segment);
    let class = airport.class_name(class);
    records.write(&[
        b"seconds".as_slice(),
        segment.bytes(),
        class.bytes(),
        digits.format(seconds).as_bytes(),
    ])
}

fn write_clearances(records: &mut RecordWriter, airport: &Airport) -> Result<(), Memory>
    requires { IsWellFormed airport.now }
    ensures { OnOk result (records.new ≡ and_records records.old (clearance_records airport.now)) }
{
    for number in 0..airport.classes().count() as u32 {
        write_clearance(records, airport, Class(number))?;
    }
    Ok(())
}

fn write_clearance(
    records: &mut RecordWriter,
    airport: &Airport,
    class: Class,
) -> Result<(), Memory>
    requires { class.0 < length airport.now.classes }
    ensures { OnOk result (records.new ≡ and_records records.old (record_if_any (clearance_record airport.now class))) }
{
    let seconds = airport.clearance(class);
    if seconds == 0 {
        return Ok(());
    }
    let mut digits = Buffer::new();
    let class = airport.class_name(class);
    records.write(&[
        b"clearance".as_slice(),
        class.bytes(),
        digits.format(seconds).as_bytes(),
    ])
}

fn write_turns(records: &mut RecordWriter, airport: &Airport) -> Result<(), Memory>
    requires { IsWellFormed airport.now }
    ensures { OnOk result (records.new ≡ and_records records.old (map (forbid_record airport.now) airport.now.forbidden)) }
{
    for turn in airport.graph().forbidden() {
        write_turn(records, airport, turn.0, turn.1)?;
    }
    Ok(())
}

fn write_turn(records: &mut RecordWriter, airport: &Airport, x: Arc, y: Arc) -> Result<(), Memory>
    requires from { x.0 / 2 < length airport.now.segments }
    requires to { y.0 / 2 < length airport.now.segments }
    ensures { OnOk result (records.new ≡ and_records records.old (forbid_record airport.now (x, y) ∷ [])) }
{
    let first = arc_text(airport, x);
    let second = arc_text(airport, y);
    records.write(&[b"forbid".as_slice(), first.bytes(), second.bytes()])
}

fn arc_text(airport: &Airport, arc: Arc) -> ShortText
    requires { arc.0 / 2 < length airport.now.segments }
    ensures { result ≡ word_of_arc airport.now arc }
{
    let name = airport.segment_name(arc.segment());
    let mut text = ShortText::new();
    text.push(name.bytes());
    text.push(if arc.is_forward() { b"+" } else { b"-" });
    text
}

fn write_conflicts(
    alloc: Global,
    records: &mut RecordWriter,
    airport: &Airport,
) -> Result<(), Memory>
    requires { IsWellFormed airport.now }
    ensures { OnOk result (records.new ≡ and_records records.old (map (conflict_record airport.now) airport.now.conflicts)) }
{
    let mut row = ByteRecord::new(alloc);
    for set in airport.conflicts().sets() {
        fill_row(&mut row, airport, set.as_slice())?;
        records.write_row(&row)?;
    }
    Ok(())
}

fn fill_row(row: &mut ByteRecord, airport: &Airport, members: &[Segment]) -> Result<(), Memory>
    requires { All (λ m. m.0 < length airport.now.segments) members.now }
    ensures { OnOk result (fields_of row.new ≡ conflict_record airport.now members.now) }
{
    row.clear();
    row.push_field(b"conflict")?;
    for member in members {
        let name = airport.segment_name(*member);
        row.push_field(name.bytes())?;
    }
    Ok(())
}
