//! The text of the commands of flights.
ghost use Rattle.std.specs.Prelude.{◌≡◌, ◌∷◌, ◌<◌, ◌≤◌, ◌*◌, [], map, Some, IfOk, OnOk, vec_len};
ghost use Rattle.std.specs.Str.{byte};
ghost use Rattle.taxi_text.specs.Lines.{commands_of};
ghost use Rattle.taxi_text.specs.Commands.{command_of};
ghost use Rattle.airport_text.specs.Canonical.{numbers_below};
ghost use Rattle.traffic_generator.specs.Draws.{state_after};
ghost use Rattle.traffic_generator.specs.Texts.{and_lines};
ghost use Rattle.traffic_generator.specs.Grid.{segment_count};
ghost use Rattle.traffic_generator.specs.Flights.{command_words, words_of_flight, asked_commands, command_lines, commands_text};

use crate::draws::Draws;
use crate::flights::{Flight, flight_name};
use crate::lines::push_line;
use crate::places::segment_count;
use itoa::Buffer;
use std::alloc::Global;
use taxi_base::Memory;

/// The commands of so many flights over the airport of the same number and side. The only error is that memory ran out.
pub fn generate_commands(
    alloc: Global,
    number: u32,
    side: u32,
    flights: u32,
) -> Result<Vec<u8>, Memory>
    requires number { number ≤ 9999999 }
    requires side { (2 ≤ side) × (side ≤ 40) }
    requires flights { flights ≤ 2000 }
    ensures text { IfOk result (λ text. text.items ≡ commands_text number side flights) }
    ensures commands { IfOk result (λ text. commands_of text.items ≡ command_lines number side flights) }
    ensures grammar { IfOk result (λ text. map command_of (commands_of text.items) ≡ map (λ c. Some c) (asked_commands number side flights)) }
    ensures short { IfOk result (λ text. vec_len text ≤ 16777216) }
{
    let mut text = Vec::new(alloc);
    let mut draws = draws_after_segments(number, side);
    for flight in 0..flights {
        let drawn = Flight::draw(&mut draws, side);
        push_command(&mut text, side, flight, drawn)?;
    }
    Ok(text)
}

/// The draws that are left once each segment has had its own.
fn draws_after_segments(number: u32, side: u32) -> Draws
    requires { (2 ≤ side) × (side ≤ 40) }
    ensures { result.state ≡ state_after number (segment_count side) }
{
    let mut draws = Draws::new(number);
    for _ in 0..segment_count(side) {
        draws.below(41);
    }
    draws
}

fn push_command(text: &mut Vec<u8>, side: u32, number: u32, flight: Flight) -> Result<(), Memory>
    requires side { 0 < side }
    requires time { flight.time < 7200 }
    ensures { OnOk result (text.new.items ≡ and_lines (byte " ") text.old.items (command_words side number flight ∷ [])) }
{
    let name = flight_name(number);
    let class = flight.class_word();
    let runway = flight.runway_name();
    let stand = flight.stand_name(side);
    let mut digits = Buffer::new();
    if flight.arrives {
        let time = digits.format(flight.time).as_bytes();
        push_line(
            text,
            b' ',
            b"arrival",
            &[
                name.bytes(),
                class,
                runway.bytes(),
                stand.bytes(),
                time,
                b"600".as_slice(),
            ],
        )
    } else {
        let time = digits.format(flight.time + 3600).as_bytes();
        push_line(
            text,
            b' ',
            b"departure",
            &[
                name.bytes(),
                class,
                stand.bytes(),
                runway.bytes(),
                time,
                b"600".as_slice(),
            ],
        )
    }
}
