//! Whole blocks.
ghost use Rattle.std.specs.Prelude.{◌≡◌, IfOk};
ghost use Rattle.replies.specs.declared.block.Block.{Block as Plain};
ghost use Rattle.replies.specs.Texts.{block_text};
ghost use Rattle.replies.specs.Printable.{IsPrintable};
ghost use Rattle.block_reader.specs.Reading.{word_then, word_last, Finds, IsRead};
ghost use Rattle.block_reader.specs.Read.{BeginsWith, IsBlockText, IsBlockRead, Reads};
ghost use Rattle.block_reader.specs.Fields.{count_of, segment_of_word};
ghost use Rattle.block_reader.specs.Blocks.{refused_at, filed_at, cancelled_at, windows_at, occupancy_at, timetable_at, block_at};

use crate::entries::{read_batch, read_late};
use crate::fields::{behind, count_field, name_field, number_field, segment_field};
use crate::found::read_found;
use crate::refusal::read_refusal;
use crate::refused::BlockRefused;
use crate::rows::read_rows;
use airport_file::Airport;
use replies::Block;
use std::alloc::Global;
use taxi_base::{FlightRow, HeldRow, Memory, Segment, Span};

/// The printable block that the bytes begin with, and the length of its text. `NotABlock` exactly where they begin with
/// none. Rows that a count tells of and that aren't there take no room.
pub fn read_block(
    alloc: Global,
    airport: &Airport,
    bytes: &[u8],
) -> Result<(Block, usize), BlockRefused>
    ensures found { IsBlockRead airport.now bytes.now result }
    ensures only { (block : Plain) → BeginsWith airport.now bytes.now block → Reads airport.now block result }
{
    // The airport keeps its rules, so each name is that of one thing.
    let _ = airport.horizon();
    match read_any(alloc, airport, bytes) {
        Ok((block, rest)) => Ok((block, bytes.len() - rest.len())),
        Err(why) => Err(why),
    }
}

/// The block whose text a reply is, where it is known to be one, since it was just printed. The only error is that memory ran out.
pub fn read_back(alloc: Global, airport: &Airport, reply: &[u8]) -> Result<Block, Memory>
    requires printed { IsBlockText airport.now reply.now }
    ensures text { IfOk result (λ read. IsPrintable airport.now read × (reply.now ≡ block_text airport.now read)) }
    ensures only { (block : Plain) → IsPrintable airport.now block → reply.now ≡ block_text airport.now block → IfOk result (λ read. read ≡ block) }
{
    match read_block(alloc, airport, reply) {
        Ok((block, _)) => Ok(block),
        Err(BlockRefused::Memory) => Err(Memory::told()),
        Err(BlockRefused::NotABlock) => unreachable!(),
    }
}

#[tactic(auto, unfolding(crate::specs::Blocks::refused_at))]
fn read_refused(bytes: &[u8]) -> Result<(Block, &[u8]), BlockRefused>
    ensures { IsRead (λ x. (x.0, x.1.now)) result (refused_at bytes.now) }
{
    let Some((why, rest)) = read_refusal(bytes) else {
        return Err(BlockRefused::NotABlock);
    };
    Ok((Block::Refused(why), rest))
}

#[tactic(auto, unfolding(crate::specs::Blocks::filed_at))]
fn read_filed(bytes: &[u8]) -> Result<(Block, &[u8]), BlockRefused>
    ensures { IsRead (λ x. (x.0, x.1.now)) result (filed_at bytes.now) }
{
    let Some((flight, rest)) = name_field(b' ', bytes) else {
        return Err(BlockRefused::NotABlock);
    };
    let Some((start, rest)) = number_field(b' ', rest) else {
        return Err(BlockRefused::NotABlock);
    };
    let Some((end, rest)) = number_field(b'\n', rest) else {
        return Err(BlockRefused::NotABlock);
    };
    Ok((Block::Filed { flight, start, end }, rest))
}

#[tactic(auto, unfolding(crate::specs::Blocks::cancelled_at))]
fn read_cancelled(bytes: &[u8]) -> Result<(Block, &[u8]), BlockRefused>
    ensures { IsRead (λ x. (x.0, x.1.now)) result (cancelled_at bytes.now) }
{
    let Some((flight, rest)) = name_field(b'\n', bytes) else {
        return Err(BlockRefused::NotABlock);
    };
    Ok((Block::Cancelled { flight }, rest))
}

fn segment_head<'a>(airport: &Airport, bytes: &'a [u8]) -> Option<((Segment, u64), &'a [u8])>
    ensures { Finds (λ x. (x.0, x.1.now)) result (word_then (segment_of_word airport.now) (word_last count_of) bytes.now) }
{
    let (segment, rest) = segment_field(airport, b' ', bytes)?;
    let (count, rest) = count_field(b'\n', rest)?;
    Some(((segment, count), rest))
}

#[tactic(auto, unfolding(crate::specs::Blocks::windows_at))]
fn read_windows<'a>(
    alloc: Global,
    airport: &Airport,
    bytes: &'a [u8],
) -> Result<(Block, &'a [u8]), BlockRefused>
    ensures { IsRead (λ x. (x.0, x.1.now)) result (windows_at airport.now bytes.now) }
{
    let Some(((segment, windows), rest)) = segment_head(airport, bytes) else {
        return Err(BlockRefused::NotABlock);
    };
    let (windows, rest) = read_rows::<Span>(alloc, airport, windows, rest)?;
    Ok((Block::Windows { segment, windows }, rest))
}

#[tactic(auto, unfolding(crate::specs::Blocks::occupancy_at))]
fn read_occupancy<'a>(
    alloc: Global,
    airport: &Airport,
    bytes: &'a [u8],
) -> Result<(Block, &'a [u8]), BlockRefused>
    ensures { IsRead (λ x. (x.0, x.1.now)) result (occupancy_at airport.now bytes.now) }
{
    let Some(((segment, held), rest)) = segment_head(airport, bytes) else {
        return Err(BlockRefused::NotABlock);
    };
    let (held, rest) = read_rows::<HeldRow>(alloc, airport, held, rest)?;
    Ok((Block::Occupancy { segment, held }, rest))
}

#[tactic(auto, unfolding(crate::specs::Blocks::timetable_at))]
fn read_timetable<'a>(
    alloc: Global,
    airport: &Airport,
    bytes: &'a [u8],
) -> Result<(Block, &'a [u8]), BlockRefused>
    ensures { IsRead (λ x. (x.0, x.1.now)) result (timetable_at airport.now bytes.now) }
{
    let Some((flights, rest)) = count_field(b'\n', bytes) else {
        return Err(BlockRefused::NotABlock);
    };
    let (flights, rest) = read_rows::<FlightRow>(alloc, airport, flights, rest)?;
    Ok((Block::Timetable { flights }, rest))
}

#[tactic(auto, unfolding(crate::specs::Blocks::block_at))]
fn read_any<'a>(
    alloc: Global,
    airport: &Airport,
    bytes: &'a [u8],
) -> Result<(Block, &'a [u8]), BlockRefused>
    ensures { IsRead (λ x. (x.0, x.1.now)) result (block_at airport.now bytes.now) }
{
    if let Some(rest) = behind(b"refused ", bytes) {
        return read_refused(rest);
    }
    if let Some(rest) = behind(b"filed ", bytes) {
        return read_filed(rest);
    }
    if let Some(rest) = behind(b"cancelled ", bytes) {
        return read_cancelled(rest);
    }
    if let Some(rest) = behind(b"windows ", bytes) {
        return read_windows(alloc, airport, rest);
    }
    if let Some(rest) = behind(b"occupancy ", bytes) {
        return read_occupancy(alloc, airport, rest);
    }
    if let Some(rest) = behind(b"timetable ", bytes) {
        return read_timetable(alloc, airport, rest);
    }
    if let Some(rest) = behind(b"batch ", bytes) {
        return read_batch(alloc, airport, rest);
    }
    if let Some(rest) = behind(b"late ", bytes) {
        return read_late(alloc, airport, rest);
    }
    read_found(alloc, airport, bytes)
}
