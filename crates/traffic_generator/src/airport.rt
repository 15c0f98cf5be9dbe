//! The text of a square airport.
ghost use Rattle.std.specs.Prelude.{◌≡◌, ◌∷◌, ◌<◌, ◌≤◌, ◌*◌, [], IfOk, OnOk, Ok, codes, decimal, map, flat_map, vec_len};
ghost use Rattle.std.specs.Str.{byte};
ghost use Rattle.airport_file.specs.Reading.{airport_of};
ghost use Rattle.airport_text.specs.Canonical.{kind_word, numbers_below};
ghost use Rattle.traffic_generator.specs.Places.{places};
ghost use Rattle.traffic_generator.specs.Texts.{and_lines};
ghost use Rattle.traffic_generator.specs.Grid.{kind_at, node_record, segment_record, segment_count, way_at, way_name, time_records, conflict_record, conflict_places, airport_text, grid_airport};

use crate::draws::Draws;
use crate::lines::push_line;
use crate::places::{Place, Way, along_row, name_of, place_at, segment_count, to_next_row, way_at};
use itoa::Buffer;
use std::alloc::Global;
use taxi_base::{Kind, Memory};

/// The airport file of a square grid with so many nodes a side, its least times drawn from the number. The only error is
/// that memory ran out.
pub fn generate_airport(alloc: Global, number: u32, side: u32) -> Result<Vec<u8>, Memory>
    requires number { number ≤ 9999999 }
    requires side { (2 ≤ side) × (side ≤ 40) }
    ensures text { IfOk result (λ text. text.items ≡ airport_text number side) }
    ensures airport { IfOk result (λ text. airport_of text.items ≡ Ok (grid_airport number side)) }
    ensures short { IfOk result (λ text. vec_len text ≤ 4194304) }
{
    let mut text = Vec::new(alloc);
    push_line(&mut text, b',', b"taxi-airport", &[b"1".as_slice()])?;
    push_line(&mut text, b',', b"horizon", &[b"86400".as_slice()])?;
    push_nodes(&mut text, side)?;
    push_line(&mut text, b',', b"class", &[b"M".as_slice()])?;
    push_line(&mut text, b',', b"class", &[b"H".as_slice()])?;
    push_segments(&mut text, side)?;
    push_times(&mut text, number, side)?;
    push_conflicts(&mut text, side)?;
    Ok(text)
}

fn push_nodes(text: &mut Vec<u8>, side: u32) -> Result<(), Memory>
    requires { (2 ≤ side) × (side ≤ 40) }
    ensures { OnOk result (text.new.items ≡ and_lines (byte ",") text.old.items (map (node_record side) (places side side))) }
{
    for number in 0..side * side {
        push_node(text, side, place_at(side, number))?;
    }
    Ok(())
}

fn push_node(text: &mut Vec<u8>, side: u32, place: Place) -> Result<(), Memory>
    requires { place.row < 40 }
    ensures { OnOk result (text.new.items ≡ and_lines (byte ",") text.old.items (node_record side place ∷ [])) }
{
    let name = name_of(b'N', place);
    let kind = kind_word(kind_at(side, place));
    push_line(text, b',', b"node", &[name.bytes(), kind])
}

fn kind_at(side: u32, place: Place) -> Kind
    requires { place.row < 40 }
    ensures { result ≡ kind_at side place }
{
    if place.row == 0 {
        Kind::Runway
    } else if place.row + 1 == side {
        Kind::Stand
    } else {
        Kind::Junction
    }
}

fn kind_word(kind: Kind) -> &'static [u8]
    ensures { result.now ≡ kind_word kind }
{
    match kind {
        Kind::Runway => b"runway",
        Kind::Junction => b"junction",
        Kind::Stand => b"stand",
    }
}

fn push_segments(text: &mut Vec<u8>, side: u32) -> Result<(), Memory>
    requires { (2 ≤ side) × (side ≤ 40) }
    ensures { OnOk result (text.new.items ≡ and_lines (byte ",") text.old.items (map (λ s. segment_record (way_at side s)) (numbers_below (segment_count side)))) }
{
    for segment in 0..segment_count(side) {
        push_segment(text, way_at(side, segment))?;
    }
    Ok(())
}

fn push_segment(text: &mut Vec<u8>, way: Way) -> Result<(), Memory>
    ensures { OnOk result (text.new.items ≡ and_lines (byte ",") text.old.items (segment_record way ∷ [])) }
{
    let name = name_of(way.letter, way.from);
    let from = name_of(b'N', way.from);
    let to = name_of(b'N', way.to);
    push_line(
        text,
        b',',
        b"segment",
        &[name.bytes(), from.bytes(), to.bytes(), b"both".as_slice()],
    )
}

fn push_times(text: &mut Vec<u8>, number: u32, side: u32) -> Result<(), Memory>
    requires { (2 ≤ side) × (side ≤ 40) }
    ensures { OnOk result (text.new.items ≡ and_lines (byte ",") text.old.items (flat_map (time_records number side) (numbers_below (segment_count side)))) }
{
    let mut draws = Draws::new(number);
    for segment in 0..segment_count(side) {
        let drawn = draws.below(41);
        let way = way_at(side, segment);
        push_time(text, way, b"M", 20 + drawn)?;
        push_time(text, way, b"H", 30 + drawn)?;
    }
    Ok(())
}

fn push_time(text: &mut Vec<u8>, way: Way, class: &[u8], seconds: u32) -> Result<(), Memory>
    ensures { OnOk result (text.new.items ≡ and_lines (byte ",") text.old.items ((codes "seconds" ∷ way_name way ∷ class.now ∷ decimal seconds ∷ []) ∷ [])) }
{
    let name = name_of(way.letter, way.from);
    let mut digits = Buffer::new();
    let seconds = digits.format(seconds).as_bytes();
    push_line(text, b',', b"seconds", &[name.bytes(), class, seconds])
}

fn push_conflicts(text: &mut Vec<u8>, side: u32) -> Result<(), Memory>
    requires { (2 ≤ side) × (side ≤ 40) }
    ensures { OnOk result (text.new.items ≡ and_lines (byte ",") text.old.items (map conflict_record (conflict_places side))) }
{
    for number in 0..(side - 1) * (side - 1) {
        let place = place_at(side - 1, number);
        if (place.row + place.column) % 5 == 0 {
            push_conflict(text, place)?;
        }
    }
    Ok(())
}

fn push_conflict(text: &mut Vec<u8>, place: Place) -> Result<(), Memory>
    requires { (place.row < 40) × (place.column < 40) }
    ensures { OnOk result (text.new.items ≡ and_lines (byte ",") text.old.items (conflict_record place ∷ [])) }
{
    let first = to_next_row(place);
    let beside = along_row(place).to;
    let second = to_next_row(beside);
    let first = name_of(first.letter, first.from);
    let second = name_of(second.letter, second.from);
    push_line(text, b',', b"conflict", &[first.bytes(), second.bytes()])
}
