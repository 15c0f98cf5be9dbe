//! Judging one record of an airport file against those before it, field by field.
ghost use Rattle.std.specs.Prelude.{◌≡◌, ◌<◌, ◌≤◌, ◌∷◌, [], None, length, IfOk};
ghost use Rattle.taxi_base.specs.Airport.{place_of};
ghost use Rattle.airport_rules.specs.Rules.{refused, some_or, is_given, kind_of, both_of, number_within, judge_horizon, judge_node, judge_class, judge_segment, judge_link, judge_seconds, judge_clearance, judge_forbid, judge_turn};
ghost use Rattle.airport_rules.specs.Indexed.{link_of_way};
ghost use Rattle.airport_rules.specs.Judged.{Answers};

use crate::name_list::NameList;
use crate::{AirportFault, ClearanceRow, LimitKind, Plan, Taxiway, TimeRow};
use taxi_base::{Arc, Class, Kind, Memory, Name, Node, Segment};
use taxi_text::{read_arc_word, read_number};

/// Why a record is not taken.
#[derive(Clone, Copy, Debug, PartialEq, Eq)]
pub enum NotTaken {
    Fault(AirportFault),
    Memory,
}

impl From<AirportFault> for NotTaken {
    ghost use Rattle.std.specs.Prelude.{◌≡◌};
    ghost use Rattle.airport_rules.specs.declared.judging.NotTaken.TheVariants as taken;

    ghost from_gives = { λ why e. e ≡ taken.Fault why };

    fn from(why: AirportFault) -> NotTaken {
        NotTaken::Fault(why)
    }
}

impl From<Memory> for NotTaken {
    ghost use Rattle.std.specs.Prelude.{◌≡◌};
    ghost use Rattle.airport_rules.specs.declared.judging.NotTaken.TheVariants as taken;

    ghost from_gives = { λ _ e. e ≡ taken.Memory };

    fn from(_memory: Memory) -> NotTaken {
        NotTaken::Memory
    }
}

/// The fault where the test passes.
pub(crate) fn refused(why: AirportFault, test: bool) -> Result<(), AirportFault>
    ensures { result ≡ refused why test }
{
    if test { Err(why) } else { Ok(()) }
}

/// A limit that would be passed.
pub(crate) fn limit(which: LimitKind) -> AirportFault
    ensures { result ≡ AirportFault.Limit which }
{
    AirportFault::Limit { which }
}

const MOST_NODES: usize = 10_000;

const MOST_CLASSES: usize = 32;

const MOST_SEGMENTS: usize = 10_000;

const MOST_FORBIDDEN: usize = 50_000;

const LATEST_HORIZON: u32 = 604_800;

const MOST_SECONDS: u32 = 3600;

const MOST_CLEARANCE: u32 = 600;

fn kind_of(word: &[u8]) -> Option<Kind>
    ensures { result ≡ kind_of word.now }
{
    if word == b"runway".as_slice() {
        Some(Kind::Runway)
    } else if word == b"junction".as_slice() {
        Some(Kind::Junction)
    } else if word == b"stand".as_slice() {
        Some(Kind::Stand)
    } else {
        None
    }
}

/// Whether a segment is taken both ways, by the word for its direction.
fn both_of(word: &[u8]) -> Option<bool>
    ensures { result ≡ both_of word.now }
{
    if word == b"both".as_slice() {
        Some(true)
    } else if word == b"one".as_slice() {
        Some(false)
    } else {
        None
    }
}

/// A number from the least to the most.
fn number_within(least: u32, most: u32, word: &[u8]) -> Option<u32>
    ensures { result ≡ number_within least most word.now }
{
    let number = read_number(word)?;
    if least <= number && number <= most {
        Some(number)
    } else {
        None
    }
}

/// A name that is not to be given twice.
fn new_name(names: &NameList, name: &Name) -> Result<(), AirportFault>
    ensures { result ≡ refused AirportFault.NameTwice (is_given name.now names.now) }
{
    refused(AirportFault::NameTwice, names.find(name).is_some())
}

/// The place of a name that is to be given already.
fn known(names: &NameList, name: &Name) -> Result<u32, AirportFault>
    ensures place { result ≡ some_or AirportFault.UnknownName (place_of name.now names.now) }
    ensures within { IfOk result (λ at. at < length names.now) }
    ensures few { IfOk result (λ at. at < 10000) }
{
    names.find(name).ok_or(AirportFault::UnknownName)
}

pub(crate) fn judge_horizon(plan: &mut Plan, number: &[u8]) -> Result<(), NotTaken>
    ensures { Answers (judge_horizon plan.old number.now) plan.new result }
{
    let horizon = number_within(1, LATEST_HORIZON, number).ok_or(AirportFault::BadNumber)?;
    refused(AirportFault::RowTwice, plan.horizon().is_some())?;
    plan.set_horizon(horizon);
    Ok(())
}

pub(crate) fn judge_node(plan: &mut Plan, name: &[u8], kind: &[u8]) -> Result<(), NotTaken>
    ensures { Answers (judge_node plan.old name.now kind.now) plan.new result }
{
    let name = Name::read(name).ok_or(AirportFault::BadName)?;
    new_name(plan.nodes(), &name)?;
    let kind = kind_of(kind).ok_or(AirportFault::BadWord)?;
    refused(limit(LimitKind::Nodes), plan.nodes().len() >= MOST_NODES)?;
    plan.add_node(name, kind)?;
    Ok(())
}

pub(crate) fn judge_class(plan: &mut Plan, name: &[u8]) -> Result<(), NotTaken>
    ensures { Answers (judge_class plan.old name.now) plan.new result }
{
    let name = Name::read(name).ok_or(AirportFault::BadName)?;
    new_name(plan.classes(), &name)?;
    refused(
        limit(LimitKind::Classes),
        plan.classes().len() >= MOST_CLASSES,
    )?;
    plan.add_class(name)?;
    Ok(())
}

pub(crate) fn judge_segment(
    plan: &mut Plan,
    name: &[u8],
    from: &[u8],
    to: &[u8],
    direction: &[u8],
) -> Result<(), NotTaken>
    ensures { Answers (judge_segment plan.old name.now from.now to.now direction.now) plan.new result }
{
    let (Some(name), Some(from), Some(to)) = (Name::read(name), Name::read(from), Name::read(to))
    else {
        return Err(NotTaken::Fault(AirportFault::BadName));
    };
    new_name(plan.segments(), &name)?;
    let from = known(plan.nodes(), &from)?;
    let to = known(plan.nodes(), &to)?;
    let both = both_of(direction).ok_or(AirportFault::BadWord)?;
    let way = Taxiway {
        from: Node(from),
        to: Node(to),
        both,
    };
    judge_way(plan, name, &way)
}

/// A new segment between two nodes.
fn judge_way(plan: &mut Plan, name: Name, way: &Taxiway) -> Result<(), NotTaken>
    requires fresh { place_of name plan.old.segments ≡ None }
    requires from { way.now.from.0 < length plan.old.nodes }
    requires to { way.now.to.0 < length plan.old.nodes }
    ensures { Answers (judge_link plan.old name (link_of_way way.now)) plan.new result }
{
    refused(
        limit(LimitKind::Segments),
        plan.segments().len() >= MOST_SEGMENTS,
    )?;
    refused(limit(LimitKind::Ends), plan.is_crowded(way))?;
    plan.add_segment(name, way)?;
    Ok(())
}

pub(crate) fn judge_seconds(
    plan: &mut Plan,
    segment: &[u8],
    class: &[u8],
    number: &[u8],
) -> Result<(), NotTaken>
    ensures { Answers (judge_seconds plan.old segment.now class.now number.now) plan.new result }
{
    let (Some(segment), Some(class)) = (Name::read(segment), Name::read(class)) else {
        return Err(NotTaken::Fault(AirportFault::BadName));
    };
    let segment = known(plan.segments(), &segment)?;
    let class = known(plan.classes(), &class)?;
    let seconds = number_within(1, MOST_SECONDS, number).ok_or(AirportFault::BadNumber)?;
    let row = TimeRow {
        segment: Segment(segment),
        class: Class(class),
        seconds,
    };
    let added = plan.add_time(&row)?;
    refused(AirportFault::RowTwice, !added)?;
    Ok(())
}

pub(crate) fn judge_clearance(plan: &mut Plan, class: &[u8], number: &[u8]) -> Result<(), NotTaken>
    ensures { Answers (judge_clearance plan.old class.now number.now) plan.new result }
{
    let class = Name::read(class).ok_or(AirportFault::BadName)?;
    let class = known(plan.classes(), &class)?;
    let seconds = number_within(0, MOST_CLEARANCE, number).ok_or(AirportFault::BadNumber)?;
    let row = ClearanceRow {
        class: Class(class),
        seconds,
    };
    refused(AirportFault::RowTwice, plan.has_clearance(row.class))?;
    plan.add_clearance(&row)?;
    Ok(())
}

pub(crate) fn judge_forbid(plan: &mut Plan, x: &[u8], y: &[u8]) -> Result<(), NotTaken>
    ensures { Answers (judge_forbid plan.old x.now y.now) plan.new result }
{
    let (first, forward) = read_arc_word(x).ok_or(AirportFault::BadName)?;
    let (second, onward) = read_arc_word(y).ok_or(AirportFault::BadName)?;
    let first = Arc::of(Segment(known(plan.segments(), &first)?), forward);
    let second = Arc::of(Segment(known(plan.segments(), &second)?), onward);
    judge_turn(plan, first, second)
}

/// A turn that is to be forbidden.
fn judge_turn(plan: &mut Plan, x: Arc, y: Arc) -> Result<(), NotTaken>
    ensures { Answers (judge_turn plan.old x y) plan.new result }
{
    refused(AirportFault::NoSuchArc, !plan.goes_on(x, y))?;
    refused(AirportFault::RowTwice, plan.is_forbidden(x, y))?;
    refused(
        limit(LimitKind::Forbids),
        plan.forbidden_count() >= MOST_FORBIDDEN,
    )?;
    plan.forbid(x, y)?;
    Ok(())
}
