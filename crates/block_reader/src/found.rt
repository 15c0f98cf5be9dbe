//! What a search found: a route, or that there is none.
ghost use Rattle.block_reader.specs.Reading.{Finds, IsRead};
ghost use Rattle.block_reader.specs.Blocks.{route_head_at, route_at, no_route_at, found_at};

use crate::fields::{behind, count_field, name_field, number_field, some_count_field};
use crate::refused::BlockRefused;
use crate::rows::read_rows;
use airport_file::Airport;
use replies::Block;
use std::alloc::Global;
use taxi_base::{LabelRow, Name, Step, Time};

#[tactic(auto, unfolding(crate::specs::Blocks::found_at))]
pub(crate) fn read_found<'a>(
    alloc: Global,
    airport: &Airport,
    bytes: &'a [u8],
) -> Result<(Block, &'a [u8]), BlockRefused>
    ensures { IsRead (λ x. (x.0, x.1.now)) result (found_at airport.now bytes.now) }
{
    if let Some(rest) = behind(b"route ", bytes) {
        return read_route(alloc, airport, rest);
    }
    match behind(b"no-route ", bytes) {
        Some(rest) => read_no_route(alloc, airport, rest),
        None => Err(BlockRefused::NotABlock),
    }
}

#[tactic(auto, unfolding(crate::specs::Blocks::route_head_at))]
fn route_head(bytes: &[u8]) -> Option<((Name, (Time, (u64, u64))), &[u8])>
    ensures { Finds (λ x. (x.0, x.1.now)) result (route_head_at bytes.now) }
{
    let Some((flight, rest)) = name_field(b' ', bytes) else {
        return None;
    };
    let (second, rest) = number_field(b' ', rest)?;
    let (steps, rest) = some_count_field(b' ', rest)?;
    let (labels, rest) = count_field(b'\n', rest)?;
    Some(((flight, (second, (steps, labels))), rest))
}

#[tactic(auto, unfolding(crate::specs::Blocks::route_at))]
fn read_route<'a>(
    alloc: Global,
    airport: &Airport,
    bytes: &'a [u8],
) -> Result<(Block, &'a [u8]), BlockRefused>
    ensures { IsRead (λ x. (x.0, x.1.now)) result (route_at airport.now bytes.now) }
{
    let Some(((flight, (second, (steps, labels))), rest)) = route_head(bytes) else {
        return Err(BlockRefused::NotABlock);
    };
    let (steps, rest) = read_rows::<Step>(alloc, airport, steps, rest)?;
    let (labels, rest) = read_rows::<LabelRow>(alloc, airport, labels, rest)?;
    let block = Block::Route {
        flight,
        second,
        steps,
        labels,
    };
    Ok((block, rest))
}

#[tactic(auto, unfolding(crate::specs::Blocks::no_route_at))]
fn read_no_route<'a>(
    alloc: Global,
    airport: &Airport,
    bytes: &'a [u8],
) -> Result<(Block, &'a [u8]), BlockRefused>
    ensures { IsRead (λ x. (x.0, x.1.now)) result (no_route_at airport.now bytes.now) }
{
    let Some((labels, rest)) = count_field(b'\n', bytes) else {
        return Err(BlockRefused::NotABlock);
    };
    let (labels, rest) = read_rows::<LabelRow>(alloc, airport, labels, rest)?;
    Ok((Block::NoRoute { labels }, rest))
}
