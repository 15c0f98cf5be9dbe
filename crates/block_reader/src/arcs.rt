//! An arc and a blank, looked for first where it is likely.
ghost use Rattle.std.specs.Prelude.{◌≡◌, ◌∷◌, IfSome, Some};
ghost use Rattle.taxi_text.specs.Fields.{sign_of};
ghost use Rattle.block_reader.specs.Fields.{arc_of_word};
ghost use Rattle.block_reader.specs.Reading.{field_at, Finds};

use crate::fields::{behind, word_at};
use airport_file::Airport;
use taxi_base::Arc;
use taxi_text::read_arc_word;

/// The arc of a label. Labels stand in order of their arcs, so it is looked for first beside that of the label before.
pub(crate) fn label_arc<'a>(
    airport: &Airport,
    before: Arc,
    bytes: &'a [u8],
) -> Option<(Arc, &'a [u8])>
    ensures { Finds (λ x. (x.0, x.1.now)) result (field_at (arc_of_word airport.now) 32 bytes.now) }
{
    for ahead in [1, 3, 0] {
        let near = Arc(before.0.saturating_add(ahead));
        if let Some(found) = arc_beside(airport, near, bytes) {
            return Some(found);
        }
    }
    any_arc(airport, bytes)
}

/// The arc of a step. It goes on from that of the step before, so it is looked for first where a turn leads.
pub(crate) fn step_arc<'a>(
    airport: &Airport,
    before: Arc,
    bytes: &'a [u8],
) -> Option<(Arc, &'a [u8])>
    ensures { Finds (λ x. (x.0, x.1.now)) result (field_at (arc_of_word airport.now) 32 bytes.now) }
{
    if airport.graph().exists(before) {
        for near in airport.graph().next(before) {
            if let Some(found) = arc_beside(airport, *near, bytes) {
                return Some(found);
            }
        }
    }
    any_arc(airport, bytes)
}

// Any arc, by its name.
fn any_arc<'a>(airport: &Airport, bytes: &'a [u8]) -> Option<(Arc, &'a [u8])>
    ensures { Finds (λ x. (x.0, x.1.now)) result (field_at (arc_of_word airport.now) 32 bytes.now) }
{
    let (word, rest) = word_at(b' ', bytes)?;
    let (name, forward) = read_arc_word(word)?;
    let arc = airport.arc_named(&name, forward)?;
    Some((arc, rest))
}

// The arc at the front, where it is on the segment of this one.
#[inline(always)]
fn arc_beside<'a>(airport: &Airport, near: Arc, bytes: &'a [u8]) -> Option<(Arc, &'a [u8])>
    ensures { IfSome result (λ x. field_at (arc_of_word airport.now) 32 bytes.now ≡ Some (x.0, x.1.now)) }
{
    // The airport keeps its rules, so no two segments have one name.
    let _ = airport.horizon();
    let segment = near.segment();
    if !airport.graph().exists(Arc::of(segment, true)) {
        return None;
    }
    let name = airport.segment_name(segment);
    let rest = behind(name.bytes(), bytes)?;
    let (forward, rest) = direction(rest)?;
    let arc = Arc::of(segment, forward);
    if !airport.graph().exists(arc) {
        return None;
    }
    Some((arc, rest))
}

// Which way a sign means, where one and a blank stand at the front.
#[inline(always)]
fn direction(bytes: &[u8]) -> Option<(bool, &[u8])>
    ensures { IfSome result (λ x. bytes.now ≡ sign_of x.0 ∷ 32 ∷ x.1.now) }
{
    let (front, rest) = bytes.split_first_chunk::<2>()?;
    match *front {
        [b'+', b' '] => Some((true, rest)),
        [b'-', b' '] => Some((false, rest)),
        _ => None,
    }
}
