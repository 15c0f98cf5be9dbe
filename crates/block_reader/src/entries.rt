//! Blocks that tell of several flights, one after the other.
ghost use Rattle.std.specs.Prelude.{◌≡◌};
ghost use Rattle.taxi_text.specs.Fields.{name_of};
ghost use Rattle.block_reader.specs.Fields.{some_count_of, batch_count_of, total_of};
ghost use Rattle.block_reader.specs.Reading.{word_then, word_last, rows_at, Finds, IsRead};
ghost use Rattle.block_reader.specs.Blocks.{entry_of, told_at, entry_at, batch_at, late_at};

use crate::fields::{batch_count_field, behind, name_field, some_count_field, total_field};
use crate::found::read_found;
use crate::refused::BlockRefused;
use airport_file::Airport;
use replies::{Block, Entries, Entry, are_told};
use std::alloc::Global;
use taxi_base::Name;

/// A batch, of which no flight is dropped.
#[tactic(auto, unfolding(crate::specs::Blocks::batch_at))]
pub(crate) fn read_batch<'a>(
    alloc: Global,
    airport: &Airport,
    bytes: &'a [u8],
) -> Result<(Block, &'a [u8]), BlockRefused>
    ensures { IsRead (λ x. (x.0, x.1.now)) result (batch_at airport.now bytes.now) }
{
    let Some(((count, total), rest)) = batch_head(bytes) else {
        return Err(BlockRefused::NotABlock);
    };
    let (entries, rest) = read_entries(alloc, airport, count, rest)?;
    if !are_told(entries.as_slice()) {
        return Err(BlockRefused::NotABlock);
    }
    Ok((Block::Batch { total, entries }, rest))
}

fn batch_head(bytes: &[u8]) -> Option<((u64, u32), &[u8])>
    ensures { Finds (λ x. (x.0, x.1.now)) result (word_then batch_count_of (word_last total_of) bytes.now) }
{
    let (count, rest) = batch_count_field(b' ', bytes)?;
    let (total, rest) = total_field(b'\n', rest)?;
    Some(((count, total), rest))
}

/// What is told where a flight is late.
#[tactic(auto, unfolding(crate::specs::Blocks::late_at))]
pub(crate) fn read_late<'a>(
    alloc: Global,
    airport: &Airport,
    bytes: &'a [u8],
) -> Result<(Block, &'a [u8]), BlockRefused>
    ensures { IsRead (λ x. (x.0, x.1.now)) result (late_at airport.now bytes.now) }
{
    let Some(((flight, count), rest)) = late_head(bytes) else {
        return Err(BlockRefused::NotABlock);
    };
    let (entries, rest) = read_entries(alloc, airport, count, rest)?;
    Ok((Block::Late { flight, entries }, rest))
}

fn late_head(bytes: &[u8]) -> Option<((Name, u64), &[u8])>
    ensures { Finds (λ x. (x.0, x.1.now)) result (word_then name_of (word_last some_count_of) bytes.now) }
{
    let Some((flight, rest)) = name_field(b' ', bytes) else {
        return None;
    };
    let (count, rest) = some_count_field(b'\n', rest)?;
    Some(((flight, count), rest))
}

// So many entries. Room is taken for each only once it is read.
fn read_entries<'a>(
    alloc: Global,
    airport: &Airport,
    count: u64,
    bytes: &'a [u8],
) -> Result<(Entries, &'a [u8]), BlockRefused>
    ensures { IsRead (λ x. (x.0, x.1.now)) result (rows_at (entry_at airport.now) count bytes.now) }
{
    let mut entries = Entries::new(alloc);
    let mut rest = bytes;
    for _ in 0..count {
        let ((name, entry), left) = read_entry(alloc, airport, rest)?;
        entries.push(name, entry)?;
        rest = left;
    }
    Ok((entries, rest))
}

// An entry: of which flight, and what is told of it; or the one line that it is dropped.
#[tactic(auto, unfolding(crate::specs::Blocks::entry_at))]
fn read_entry<'a>(
    alloc: Global,
    airport: &Airport,
    bytes: &'a [u8],
) -> Result<((Name, Entry), &'a [u8]), BlockRefused>
    ensures { IsRead (λ x. (x.0, x.1.now)) result (entry_at airport.now bytes.now) }
{
    if let Some(rest) = behind(b"next ", bytes) {
        return read_told(alloc, airport, rest);
    }
    let Some(rest) = behind(b"dropped ", bytes) else {
        return Err(BlockRefused::NotABlock);
    };
    let Some((name, rest)) = name_field(b'\n', rest) else {
        return Err(BlockRefused::NotABlock);
    };
    Ok(((name, Entry::Dropped), rest))
}

// The name of a flight, and what is told of it.
#[tactic(auto, unfolding(crate::specs::Blocks::told_at))]
fn read_told<'a>(
    alloc: Global,
    airport: &Airport,
    bytes: &'a [u8],
) -> Result<((Name, Entry), &'a [u8]), BlockRefused>
    ensures { IsRead (λ x. (x.0, x.1.now)) result (told_at airport.now bytes.now) }
{
    let Some((name, rest)) = name_field(b'\n', bytes) else {
        return Err(BlockRefused::NotABlock);
    };
    let (told, rest) = read_found(alloc, airport, rest)?;
    match entry_of(name, told) {
        Some(entry) => Ok((entry, rest)),
        None => Err(BlockRefused::NotABlock),
    }
}

// The entry of a flight that a block tells of. A route of another flight is none.
fn entry_of(name: Name, told: Block) -> Option<(Name, Entry)>
    ensures { result ≡ entry_of name told }
{
    match told {
        Block::Route {
            flight,
            second,
            steps,
            labels,
        } => {
            if flight == name {
                let entry = Entry::Route {
                    second,
                    steps,
                    labels,
                };
                Some((name, entry))
            } else {
                None
            }
        }
        Block::NoRoute { labels } => Some((name, Entry::NoRoute { labels })),
        _ => None,
    }
}
