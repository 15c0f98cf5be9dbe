//! Judging a record by its first field.
ghost use Rattle.std.specs.Prelude.{◌≡◌, ◌≤◌, [], List, ℕ, bytes_eq};
ghost use Rattle.airport_rules.specs.Rules.{judge, judge_row, judge_horizon_row, judge_node_row, judge_class_row, judge_segment_row, judge_seconds_row, judge_clearance_row, judge_forbid_row, judge_conflict_row};
ghost use Rattle.airport_rules.specs.Judged.{Answers, texts_of};

use crate::judging::{
    judge_class, judge_clearance, judge_forbid, judge_horizon, judge_node, judge_seconds,
    judge_segment,
};
use crate::members::judge_conflict;
use crate::{AirportFault, NotTaken, Plan, Version};
use std::alloc::Global;

// What a record of any other number of fields is refused for.
const WRONG_COUNT: NotTaken = NotTaken::Fault(AirportFault::FieldCount);

/// Judges a record after the first by its fields, in a file of this version, and adds what it gives to the plan.
#[tactic(auto, unfolding(crate::specs::Rules::judge))]
pub fn judge(
    alloc: Global,
    version: Version,
    plan: &mut Plan,
    fields: &[&[u8]],
) -> Result<(), NotTaken>
    ensures { Answers (judge version plan.old (texts_of fields.now)) plan.new result }
{
    match fields.split_first() {
        Some((word, rest)) => judge_row(alloc, version, plan, word, rest),
        None => Err(NotTaken::Fault(AirportFault::UnknownRow)),
    }
}

fn judge_row(
    alloc: Global,
    version: Version,
    plan: &mut Plan,
    word: &[u8],
    fields: &[&[u8]],
) -> Result<(), NotTaken>
    ensures { Answers (judge_row version plan.old word.now (texts_of fields.now)) plan.new result }
{
    if word == b"horizon".as_slice() {
        judge_horizon_row(plan, fields)
    } else if word == b"node".as_slice() {
        judge_node_row(plan, fields)
    } else if word == b"class".as_slice() {
        judge_class_row(plan, fields)
    } else if word == b"segment".as_slice() {
        judge_segment_row(plan, fields)
    } else if word == b"seconds".as_slice() {
        judge_seconds_row(plan, fields)
    } else if word == b"forbid".as_slice() {
        judge_forbid_row(plan, fields)
    } else if word == b"conflict".as_slice() {
        judge_conflict_row(alloc, plan, fields)
    } else if word == b"clearance".as_slice() && version.gives_clearances() {
        judge_clearance_row(plan, fields)
    } else {
        Err(NotTaken::Fault(AirportFault::UnknownRow))
    }
}

fn judge_horizon_row(plan: &mut Plan, fields: &[&[u8]]) -> Result<(), NotTaken>
    ensures { Answers (judge_horizon_row plan.old (texts_of fields.now)) plan.new result }
{
    match fields {
        [number] => judge_horizon(plan, number),
        _ => Err(WRONG_COUNT),
    }
}

fn judge_node_row(plan: &mut Plan, fields: &[&[u8]]) -> Result<(), NotTaken>
    ensures { Answers (judge_node_row plan.old (texts_of fields.now)) plan.new result }
{
    match fields {
        [name, kind] => judge_node(plan, name, kind),
        _ => Err(WRONG_COUNT),
    }
}

fn judge_class_row(plan: &mut Plan, fields: &[&[u8]]) -> Result<(), NotTaken>
    ensures { Answers (judge_class_row plan.old (texts_of fields.now)) plan.new result }
{
    match fields {
        [name] => judge_class(plan, name),
        _ => Err(WRONG_COUNT),
    }
}

fn judge_segment_row(plan: &mut Plan, fields: &[&[u8]]) -> Result<(), NotTaken>
    ensures { Answers (judge_segment_row plan.old (texts_of fields.now)) plan.new result }
{
    match fields {
        [name, from, to, direction] => judge_segment(plan, name, from, to, direction),
        _ => Err(WRONG_COUNT),
    }
}

fn judge_seconds_row(plan: &mut Plan, fields: &[&[u8]]) -> Result<(), NotTaken>
    ensures { Answers (judge_seconds_row plan.old (texts_of fields.now)) plan.new result }
{
    match fields {
        [segment, class, number] => judge_seconds(plan, segment, class, number),
        _ => Err(WRONG_COUNT),
    }
}

fn judge_clearance_row(plan: &mut Plan, fields: &[&[u8]]) -> Result<(), NotTaken>
    ensures { Answers (judge_clearance_row plan.old (texts_of fields.now)) plan.new result }
{
    match fields {
        [class, number] => judge_clearance(plan, class, number),
        _ => Err(WRONG_COUNT),
    }
}

fn judge_forbid_row(plan: &mut Plan, fields: &[&[u8]]) -> Result<(), NotTaken>
    ensures { Answers (judge_forbid_row plan.old (texts_of fields.now)) plan.new result }
{
    match fields {
        [x, y] => judge_forbid(plan, x, y),
        _ => Err(WRONG_COUNT),
    }
}

fn judge_conflict_row(alloc: Global, plan: &mut Plan, fields: &[&[u8]]) -> Result<(), NotTaken>
    ensures { Answers (judge_conflict_row plan.old (texts_of fields.now)) plan.new result }
{
    if 2 <= fields.len() && fields.len() <= 16 {
        judge_conflict(alloc, plan, fields)
    } else {
        Err(WRONG_COUNT)
    }
}
