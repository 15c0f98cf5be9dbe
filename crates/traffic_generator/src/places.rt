//! The places of a grid, and what leads from one to the next.
ghost use Rattle.std.specs.Prelude.{◌≡◌, ◌<◌, ◌≤◌, ◌+◌, ◌*◌, ◌++◌, length, decimal};
ghost use Rattle.traffic_generator.specs.Places.{place_at, place_name};
ghost use Rattle.traffic_generator.specs.Grid.{along_row, to_next_row, segment_count, way_at};

use itoa::Buffer;
use taxi_text::ShortText;

/// A place of a grid, its row and column counted from 0.
#[derive(Clone, Copy)]
pub(crate) struct Place {
    pub(crate) row: u32,
    pub(crate) column: u32,
}

/// A segment from a place to another; its name begins with the letter.
#[derive(Clone, Copy)]
pub(crate) struct Way {
    pub(crate) letter: u8,
    pub(crate) from: Place,
    pub(crate) to: Place,
}

/// The place of this number, counted row by row.
pub(crate) fn place_at(columns: u32, number: u32) -> Place
    requires { 0 < columns }
    ensures { result ≡ place_at columns number }
{
    Place {
        row: number / columns,
        column: number % columns,
    }
}

/// How many segments the grid has.
pub(crate) fn segment_count(side: u32) -> u32
    requires { (2 ≤ side) × (side ≤ 40) }
    ensures { result ≡ segment_count side }
{
    2 * (side * (side - 1))
}

/// The segment of this number: first those along the rows, then those that lead to the next row.
pub(crate) fn way_at(side: u32, number: u32) -> Way
    requires side { (2 ≤ side) × (side ≤ 40) }
    requires number { number < segment_count side }
    ensures { result ≡ way_at side number }
{
    let along_rows = side * (side - 1);
    if number < along_rows {
        along_row(place_at(side - 1, number))
    } else {
        to_next_row(place_at(side, number - along_rows))
    }
}

pub(crate) fn along_row(from: Place) -> Way
    requires { from.column ≤ 1600 }
    ensures { result ≡ along_row from }
{
    Way {
        letter: b'E',
        from,
        to: Place {
            row: from.row,
            column: from.column + 1,
        },
    }
}

pub(crate) fn to_next_row(from: Place) -> Way
    requires { from.row ≤ 1600 }
    ensures { result ≡ to_next_row from }
{
    Way {
        letter: b'V',
        from,
        to: Place {
            row: from.row + 1,
            column: from.column,
        },
    }
}

/// The name of what stands at a place or begins there.
pub(crate) fn name_of(letter: u8, place: Place) -> ShortText
    ensures { result ≡ place_name letter place }
{
    let mut name = ShortText::new();
    name.push(&[letter]);
    push_digits(&mut name, place.row);
    name.push(b"-");
    push_digits(&mut name, place.column);
    name
}

/// Adds a number, which has at most 10 digits.
pub(crate) fn push_digits(text: &mut ShortText, number: u32)
    requires { length text.old + 10 ≤ 64 }
    ensures text { text.new ≡ text.old ++ decimal number }
    ensures length { length text.new ≤ length text.old + 10 }
{
    let mut digits = Buffer::new();
    text.push(digits.format(number).as_bytes());
}
