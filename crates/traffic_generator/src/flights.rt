//! Flights that are drawn.
ghost use Rattle.std.specs.Prelude.{ℕ, ◌≡◌, ◌<◌, ◌+◌};
ghost use Rattle.traffic_generator.specs.Draws.{state_after};
ghost use Rattle.traffic_generator.specs.Flights.{drawn_flight, flight_name, class_word, runway_name, stand_name};

use crate::draws::Draws;
use crate::places::{Place, name_of, push_digits};
use taxi_text::ShortText;

/// What is drawn for a flight: whether it arrives, whether it is of class M, the columns of its runway node and of its
/// stand, and its second.
#[derive(Clone, Copy)]
pub(crate) struct Flight {
    pub(crate) arrives: bool,
    pub(crate) medium: bool,
    pub(crate) runway: u32,
    pub(crate) stand: u32,
    pub(crate) time: u32,
}

impl Flight {
    /// The next five draws.
    pub(crate) fn draw(draws: &mut Draws, side: u32) -> Flight
        requires { 0 < side }
        ensures flight { (number before : ℕ) → draws.old.state ≡ state_after number before → result ≡ drawn_flight number side before }
        ensures draws { (number before : ℕ) → draws.old.state ≡ state_after number before → draws.new.state ≡ state_after number (before + 5) }
        ensures time { result.time < 7200 }
    {
        Flight {
            arrives: draws.below(2) == 0,
            medium: draws.below(2) == 0,
            runway: draws.below(side),
            stand: draws.below(side),
            time: draws.below(7200),
        }
    }

    pub(crate) fn class_word(&self) -> &'static [u8]
        ensures { result.now ≡ class_word self.now }
    {
        if self.medium { b"M" } else { b"H" }
    }

    /// The name of its runway node, in the first row.
    pub(crate) fn runway_name(&self) -> ShortText
        ensures { result ≡ runway_name self.now }
    {
        name_of(
            b'N',
            Place {
                row: 0,
                column: self.runway,
            },
        )
    }

    /// The name of its stand, in the last row.
    pub(crate) fn stand_name(&self, side: u32) -> ShortText
        requires { 0 < side }
        ensures { result ≡ stand_name side self.now }
    {
        name_of(
            b'N',
            Place {
                row: side - 1,
                column: self.stand,
            },
        )
    }
}

/// F and the flight's number.
pub(crate) fn flight_name(number: u32) -> ShortText
    ensures { result ≡ flight_name number }
{
    let mut name = ShortText::new();
    name.push(b"F");
    push_digits(&mut name, number);
    name
}
