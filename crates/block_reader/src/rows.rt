//! Rows, each of one line.
ghost use Rattle.std.specs.Prelude.{ℕ, List as Items, Option as Maybe};
ghost use Rattle.taxi_base.specs.Airport.{Airport as Plain};
ghost use Rattle.block_reader.specs.Reading.{rows_at, Finds, IsRead};
ghost use Rattle.block_reader.specs.Blocks.{step_at, label_at, window_at, held_at, flight_at};

use crate::arcs::{label_arc, step_arc};
use crate::fields::{
    behind, class_field, end_field, kind_field, name_field, second_field, segment_field,
    start_field,
};
use crate::refused::BlockRefused;
use airport_file::Airport;
use std::alloc::Global;
use std::cmp::min;
use taxi_base::{Arc, FlightRow, HeldRow, LabelRow, List, Span, Step};

/// What is written as one line.
pub(crate) trait Row: Copy {
    /// How the line is read.
    ghost row_at: { Plain → Items ℕ → Maybe (Self × Items ℕ) };

    /// The row at the front. The arc says only where to look first.
    fn read<'a>(airport: &Airport, near: Arc, bytes: &'a [u8]) -> Option<(Self, &'a [u8])>
        ensures { Finds (λ x. (x.0, x.1.now)) result (row_at airport.now bytes.now) };

    /// The arc beside which that of the next row is looked for.
    fn near(&self) -> Arc;
}

impl Row for Step {
    ghost row_at = { step_at };

    #[tactic(auto, unfolding(crate::specs::Blocks::step_at))]
    fn read<'a>(airport: &Airport, near: Arc, bytes: &'a [u8]) -> Option<(Step, &'a [u8])> {
        let rest = behind(b"step ", bytes)?;
        let (arc, rest) = step_arc(airport, near, rest)?;
        let (enter, rest) = second_field(b' ', rest)?;
        let (leave, rest) = second_field(b'\n', rest)?;
        Some((Step { arc, enter, leave }, rest))
    }

    fn near(&self) -> Arc {
        self.arc
    }
}

impl Row for LabelRow {
    ghost row_at = { label_at };

    #[tactic(auto, unfolding(crate::specs::Blocks::label_at))]
    fn read<'a>(airport: &Airport, near: Arc, bytes: &'a [u8]) -> Option<(LabelRow, &'a [u8])> {
        let rest = behind(b"label ", bytes)?;
        let (arc, rest) = label_arc(airport, near, rest)?;
        let (from, rest) = start_field(rest)?;
        let (until, rest) = end_field(rest)?;
        let (value, rest) = second_field(b'\n', rest)?;
        let row = LabelRow {
            arc,
            from,
            until,
            value,
        };
        Some((row, rest))
    }

    fn near(&self) -> Arc {
        self.arc
    }
}

impl Row for Span {
    ghost row_at = { window_at };

    #[tactic(auto, unfolding(crate::specs::Blocks::window_at))]
    fn read<'a>(airport: &Airport, _near: Arc, bytes: &'a [u8]) -> Option<(Span, &'a [u8])> {
        let _names = airport;
        let rest = behind(b"window ", bytes)?;
        let (from, rest) = second_field(b' ', rest)?;
        let (until, rest) = second_field(b'\n', rest)?;
        Some((Span { from, until }, rest))
    }

    fn near(&self) -> Arc {
        Arc(0)
    }
}

impl Row for HeldRow {
    ghost row_at = { held_at };

    #[tactic(auto, unfolding(crate::specs::Blocks::held_at))]
    fn read<'a>(airport: &Airport, _near: Arc, bytes: &'a [u8]) -> Option<(HeldRow, &'a [u8])> {
        let rest = behind(b"held ", bytes)?;
        let (from, rest) = second_field(b' ', rest)?;
        let (until, rest) = second_field(b' ', rest)?;
        let Some((flight, rest)) = name_field(b' ', rest) else {
            return None;
        };
        let (segment, rest) = segment_field(airport, b'\n', rest)?;
        let row = HeldRow {
            from,
            until,
            flight,
            segment,
        };
        Some((row, rest))
    }

    fn near(&self) -> Arc {
        Arc(0)
    }
}

impl Row for FlightRow {
    ghost row_at = { flight_at };

    #[tactic(auto, unfolding(crate::specs::Blocks::flight_at))]
    fn read<'a>(airport: &Airport, _near: Arc, bytes: &'a [u8]) -> Option<(FlightRow, &'a [u8])> {
        let rest = behind(b"flight ", bytes)?;
        let Some((flight, rest)) = name_field(b' ', rest) else {
            return None;
        };
        let (kind, rest) = kind_field(b' ', rest)?;
        let (class, rest) = class_field(airport, b' ', rest)?;
        let (start, rest) = second_field(b' ', rest)?;
        let (end, rest) = second_field(b'\n', rest)?;
        let row = FlightRow {
            flight,
            kind,
            class,
            start,
            end,
        };
        Some((row, rest))
    }

    fn near(&self) -> Arc {
        Arc(0)
    }
}

// Room for so many rows may be taken before they are read: a count may be wrong in any way.
const AT_ONCE: u64 = 512;

/// So many rows. Room for the first of them is taken at once, and for each other only once it is read.
pub(crate) fn read_rows<'a, R: Row>(
    alloc: Global,
    airport: &Airport,
    count: u64,
    bytes: &'a [u8],
) -> Result<(List<R>, &'a [u8]), BlockRefused>
    ensures { IsRead (λ x. (x.0, x.1.now)) result (rows_at (R.row_at airport.now) count bytes.now) }
{
    let mut rows = List::with_capacity(alloc, min(count, AT_ONCE) as usize)?;
    let mut rest = bytes;
    let mut near = Arc(0);
    for _ in 0..count {
        let Some(row) = R::read(airport, near, rest) else {
            return Err(BlockRefused::NotABlock);
        };
        rows.push(row.0)?;
        rest = row.1;
        near = row.0.near();
    }
    Ok((rows, rest))
}
