//! Which sets of conflicting segments make no difference.
ghost use Rattle.std.specs.Prelude.{◌≡◌, ◌<◌, ◌&&◌, [], not, length, slice_set, slice_index_or, IfOk, false};
ghost use Rattle.std.specs.List.{list_any, list_all};
ghost use Rattle.taxi_base.specs.Airport.{conflict, has_member};
ghost use Rattle.airport_lint.specs.Sets.{are_same, first_like, is_covered, marked, needed_marks};

use std::alloc::Global;
use taxi_base::{List, Memory, Segment};

/// The place of the first set with the same members as the one at a place: that place itself, where there is none before.
pub(crate) fn first_like(sets: &[List<Segment>], at: u32) -> u32
    requires { at < length sets.now }
    ensures { result ≡ first_like sets.now at }
{
    for place in 0..at {
        if is_like(sets, at as usize, place as usize) {
            return place;
        }
    }
    at
}

fn is_like(sets: &[List<Segment>], one: usize, other: usize) -> bool
    requires one { one < length sets.now }
    requires other { other < length sets.now }
    ensures { result ≡ are_same (slice_index_or sets.now one []) (slice_index_or sets.now other []) }
{
    are_same(sets[one].as_slice(), sets[other].as_slice())
}

fn are_same(one: &[Segment], other: &[Segment]) -> bool
    ensures { result ≡ are_same one.now other.now }
{
    one == other
}

/// A mark for each set: whether it is needed. They are judged from the last to the first.
pub(crate) fn needed_sets(alloc: Global, sets: &[List<Segment>]) -> Result<Vec<bool>, Memory>
    ensures { IfOk result (λ marks. marks.items ≡ needed_marks [] sets.now) }
{
    let mut marks = Vec::from_elem(alloc, true, sets.len())?;
    for judged in 0..sets.len() {
        judge(&mut marks, sets, sets.len() - 1 - judged);
    }
    Ok(marks)
}

// Marks whether a set is needed beside the others that are marked.
fn judge(marks: &mut Vec<bool>, sets: &[List<Segment>], at: usize)
    requires at { at < length sets.now }
    requires marks { length marks.old.items ≡ length sets.now }
    ensures { marks.new.items ≡ slice_set marks.old.items at (not (is_covered (marked sets.now (slice_set marks.old.items at false)) (slice_index_or sets.now at []))) }
{
    set_mark(marks, at, false);
    let covered = is_covered_at(sets, marks.as_slice(), at);
    set_mark(marks, at, !covered);
}

fn is_covered_at(sets: &[List<Segment>], marks: &[bool], at: usize) -> bool
    requires at { at < length sets.now }
    requires marks { length marks.now ≡ length sets.now }
    ensures { result ≡ is_covered (marked sets.now marks.now) (slice_index_or sets.now at []) }
{
    is_covered(sets, marks, sets[at].as_slice())
}

fn set_mark(marks: &mut Vec<bool>, at: usize, mark: bool)
    requires { at < length marks.old.items }
    ensures { marks.new.items ≡ slice_set marks.old.items at mark }
{
    marks[at] = mark;
}

fn is_covered(sets: &[List<Segment>], marks: &[bool], set: &[Segment]) -> bool
    requires { length marks.now ≡ length sets.now }
    ensures { result ≡ is_covered (marked sets.now marks.now) set.now }
{
    for member in set {
        if !conflicts_with_all(sets, marks, *member, set) {
            return false;
        }
    }
    true
}

fn conflicts_with_all(
    sets: &[List<Segment>],
    marks: &[bool],
    one: Segment,
    others: &[Segment],
) -> bool
    requires { length marks.now ≡ length sets.now }
    ensures { result ≡ list_all (conflict (marked sets.now marks.now) one) others.now }
{
    for other in others {
        if !do_conflict(sets, marks, one, *other) {
            return false;
        }
    }
    true
}

// Whether two segments conflict by the sets that are marked.
fn do_conflict(sets: &[List<Segment>], marks: &[bool], one: Segment, other: Segment) -> bool
    requires { length marks.now ≡ length sets.now }
    ensures { result ≡ conflict (marked sets.now marks.now) one other }
{
    one == other || stand_together(sets, marks, one, other)
}

fn stand_together(sets: &[List<Segment>], marks: &[bool], one: Segment, other: Segment) -> bool
    requires { length marks.now ≡ length sets.now }
    ensures { result ≡ list_any (λ set. has_member set one && has_member set other) (marked sets.now marks.now) }
{
    for at in 0..sets.len() {
        if is_marked_with(sets, marks, at, one, other) {
            return true;
        }
    }
    false
}

// Whether a set is marked and has both members.
fn is_marked_with(
    sets: &[List<Segment>],
    marks: &[bool],
    at: usize,
    one: Segment,
    other: Segment,
) -> bool
    requires marks { length marks.now ≡ length sets.now }
    requires at { at < length sets.now }
    ensures { result ≡ (slice_index_or marks.now at false && (has_member (slice_index_or sets.now at []) one && has_member (slice_index_or sets.now at []) other)) }
{
    let set = sets[at].as_slice();
    marks[at] && (has_member(set, one) && has_member(set, other))
}

fn has_member(set: &[Segment], segment: Segment) -> bool
    ensures { result ≡ has_member set.now segment }
{
    set.iter().any(|member| member.0 == segment.0)
}
