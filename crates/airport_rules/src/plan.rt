//! What the records of an airport file have given.
//!
//! The rows stand in the order of the file. Beside them are the indexes by which names, times and forbidden turns are
//! found, and the number of segment ends at each node. Each call that wants memory asks for it first, and changes
//! nothing where it gets none.
ghost use Rattle.std.specs.Prelude.{◌≡◌, ◌<◌, ◌≤◌, ◌++◌, ◌∷◌, [], ℕ, length, None, Some, Bool, false, true, not, if◌then◌else◌, OnOk, OnErr, IfOk, option_map, map};
ghost use Rattle.taxi_base.specs.Airport.{place_of, ends, arc_exists, is_forbidden};
ghost use Rattle.airport_rules.specs.Plan.{empty_plan, layout_of_plan};
ghost use Rattle.airport_rules.specs.Rules.{is_crowded, is_timed, has_clearance, goes_on, with_pair};
ghost use Rattle.airport_rules.specs.Indexed.{link_of_way, time_place};

use crate::name_list::NameList;
use crate::{ClearanceRow, Taxiway, TimeRow};
use std::alloc::Global;
use std::collections::BTreeSet;
use std::marker::Model;
use taxi_base::{Arc, Class, Kind, List, Memory, Name, Node, Segment, Time};

/// The rows of an airport file so far, found by their names.
#[derive(Drop)]
pub struct Plan {
    horizon: Option<Time>,
    nodes: NameList,
    kinds: Vec<Kind>,
    // How many ends of segments are at each node.
    ends: Vec<u32>,
    classes: NameList,
    segments: NameList,
    ways: Vec<Taxiway>,
    times: Vec<TimeRow>,
    // Whether each class has a time on each of 10,000 segments, for the classes up to the last that has any.
    timed: Vec<bool>,
    clearances: Vec<ClearanceRow>,
    // The numbers of the arcs of each forbidden turn.
    forbidden: BTreeSet<(u32, u32)>,
    conflicts: Vec<List<Segment>>,
}

impl Model for Plan {
    ghost use Rattle.airport_rules.specs.Plan.{Plan as Rows};

    ghost Value = { Rows };

    ghost use Rattle.std.specs.Prelude.{map, length};
    ghost use Rattle.airport_rules.specs.Indexed.{link_of_way, arcs_of_pair, AreCounted, AreTimed};

    ghost view = { λ p. record { horizon = p.horizon; nodes = p.nodes; kinds = p.kinds.items; classes = p.classes; segments = p.segments; links = map link_of_way p.ways.items; times = p.times.items; clearances = p.clearances.items; forbidden = map arcs_of_pair p.forbidden.keys; conflicts = p.conflicts.items } };

    ghost invariant = { λ p. AreCounted (length p.nodes) (map link_of_way p.ways.items) p.ends.items × AreTimed p.times.items p.timed.items };
}

impl Plan {
    /// No row yet.
    pub fn new(alloc: Global) -> Plan
        ensures { result ≡ empty_plan }
    {
        Plan {
            horizon: None,
            nodes: NameList::new(alloc),
            kinds: Vec::new(alloc),
            ends: Vec::new(alloc),
            classes: NameList::new(alloc),
            segments: NameList::new(alloc),
            ways: Vec::new(alloc),
            times: Vec::new(alloc),
            timed: Vec::new(alloc),
            clearances: Vec::new(alloc),
            forbidden: BTreeSet::new(alloc),
            conflicts: Vec::new(alloc),
        }
    }

    /// The second at which the day ends, if it was given yet.
    pub fn horizon(&self) -> Option<Time>
        ensures { result ≡ self.now.horizon }
    {
        self.horizon
    }

    /// The names of the nodes, in the order of the file.
    pub fn nodes(&self) -> &NameList
        ensures { result.now ≡ self.now.nodes }
    {
        &self.nodes
    }

    /// The kind of each node.
    pub fn kinds(&self) -> &[Kind]
        ensures { result.now ≡ self.now.kinds }
    {
        self.kinds.as_slice()
    }

    /// The names of the classes, in the order of the file.
    pub fn classes(&self) -> &NameList
        ensures { result.now ≡ self.now.classes }
    {
        &self.classes
    }

    /// The names of the segments, in the order of the file.
    pub fn segments(&self) -> &NameList
        ensures { result.now ≡ self.now.segments }
    {
        &self.segments
    }

    /// Gives the second at which the day ends.
    pub fn set_horizon(&mut self, horizon: Time)
        ensures { self.new ≡ record self.old { horizon = Some horizon } }
    {
        self.horizon = Some(horizon);
    }

    /// One more node. Where memory runs out the plan stays as it is, here and below.
    pub fn add_node(&mut self, name: Name, kind: Kind) -> Result<(), Memory>
        requires fresh { place_of name self.old.nodes ≡ None }
        requires room { length self.old.nodes < 10000 }
        ensures ok { OnOk result (self.new ≡ record self.old { nodes = self.old.nodes ++ name ∷ []; kinds = self.old.kinds ++ kind ∷ [] }) }
        ensures err { OnErr result (self.new ≡ self.old) }
    {
        self.kinds.reserve(1)?;
        self.ends.reserve(1)?;
        self.nodes.push(name)?;
        self.kinds.push_reserved(kind);
        self.ends.push_reserved(0);
        Ok(())
    }

    /// One more class.
    pub fn add_class(&mut self, name: Name) -> Result<(), Memory>
        requires fresh { place_of name self.old.classes ≡ None }
        requires room { length self.old.classes < 32 }
        ensures ok { OnOk result (self.new ≡ record self.old { classes = self.old.classes ++ name ∷ [] }) }
        ensures err { OnErr result (self.new ≡ self.old) }
    {
        self.classes.push(name)
    }

    /// Where each segment leads.
    pub fn ways(&self) -> &[Taxiway]
        ensures { map link_of_way result.now ≡ self.now.links }
    {
        self.ways.as_slice()
    }

    /// The least times, in the order of the file.
    pub fn times(&self) -> &[TimeRow]
        ensures { result.now ≡ self.now.times }
    {
        self.times.as_slice()
    }

    /// Whether with this way there would be more than 32 ends of segments at one of its nodes.
    pub fn is_crowded(&self, way: &Taxiway) -> bool
        requires from { way.now.from.0 < length self.now.nodes }
        requires to { way.now.to.0 < length self.now.nodes }
        ensures { result ≡ is_crowded self.now.links (link_of_way way.now) }
    {
        let new = if way.from == way.to { 2 } else { 1 };
        self.ends[way.from.0 as usize] > MOST_ENDS - new
            || self.ends[way.to.0 as usize] > MOST_ENDS - new
    }

    /// One more segment, and where it leads.
    pub fn add_segment(&mut self, name: Name, way: &Taxiway) -> Result<(), Memory>
        requires fresh { place_of name self.old.segments ≡ None }
        requires room { length self.old.segments < 10000 }
        requires from { way.now.from.0 < length self.old.nodes }
        requires to { way.now.to.0 < length self.old.nodes }
        requires ends { is_crowded self.old.links (link_of_way way.now) ≡ false }
        ensures ok { OnOk result (self.new ≡ record self.old { segments = self.old.segments ++ name ∷ []; links = self.old.links ++ link_of_way way.now ∷ [] }) }
        ensures err { OnErr result (self.new ≡ self.old) }
    {
        self.ways.reserve(1)?;
        self.segments.push(name)?;
        self.ways.push_reserved(*way);
        self.ends[way.from.0 as usize] += 1;
        self.ends[way.to.0 as usize] += 1;
        Ok(())
    }

    /// One more least time, and whether the class had none on the segment before; else the plan stays as it is.
    pub fn add_time(&mut self, row: &TimeRow) -> Result<bool, Memory>
        requires few { row.now.segment.0 < 10000 }
        ensures added { IfOk result (λ added. is_timed row.now.segment row.now.class self.old.times ≡ not added) }
        ensures ok { IfOk result (λ added. self.new ≡ (if added then record self.old { times = self.old.times ++ row.now ∷ [] } else self.old)) }
        ensures err { OnErr result (self.new ≡ self.old) }
    {
        let at = time_place(row.segment, row.class);
        if at >= self.timed.len() {
            self.timed
                .resize((row.class.0 as usize + 1) * MOST_SEGMENTS, false)?;
        }
        if self.timed[at] {
            return Ok(false);
        }
        self.times.push(*row)?;
        self.timed[at] = true;
        Ok(true)
    }

    /// The clearances that were given, in the order of the file.
    pub fn clearances(&self) -> &[ClearanceRow]
        ensures { result.now ≡ self.now.clearances }
    {
        self.clearances.as_slice()
    }

    /// Whether the class was given its clearance, be it 0.
    pub fn has_clearance(&self, class: Class) -> bool
        ensures { result ≡ has_clearance class self.now.clearances }
    {
        self.clearances.iter().any(|row| row.class.0 == class.0)
    }

    /// One more clearance.
    pub fn add_clearance(&mut self, row: &ClearanceRow) -> Result<(), Memory>
        ensures ok { OnOk result (self.new ≡ record self.old { clearances = self.old.clearances ++ row.now ∷ [] }) }
        ensures err { OnErr result (self.new ≡ self.old) }
    {
        self.clearances.push(*row)?;
        Ok(())
    }

    /// The nodes that an arc leads from and to; none where its segment lacks it.
    fn ends(&self, arc: Arc) -> Option<(Node, Node)>
        ensures { result ≡ option_map (λ e. (e.tail, e.head)) (ends (layout_of_plan self.now) arc) }
    {
        let way = self.ways.get(arc.segment().0 as usize)?;
        if arc.is_forward() {
            Some((way.from, way.to))
        } else if way.both {
            Some((way.to, way.from))
        } else {
            None
        }
    }

    /// Whether there is such an arc.
    pub fn has_arc(&self, arc: Arc) -> bool
        ensures { result ≡ arc_exists (layout_of_plan self.now) arc }
    {
        self.ends(arc).is_some()
    }

    /// Whether the second arc leads on from the first, on another segment.
    pub fn goes_on(&self, x: Arc, y: Arc) -> bool
        ensures { result ≡ goes_on (layout_of_plan self.now) x y }
    {
        match (self.ends(x), self.ends(y)) {
            (Some((_, head)), Some((tail, _))) => head == tail && x.segment() != y.segment(),
            _ => false,
        }
    }

    /// Whether the turn from one arc to another was forbidden.
    pub fn is_forbidden(&self, x: Arc, y: Arc) -> bool
        ensures { result ≡ is_forbidden self.now.forbidden x y }
    {
        self.forbidden.contains(&(x.0, y.0))
    }

    /// The forbidden turns in the order of their arcs.
    pub fn forbidden(&self, alloc: Global) -> Result<Vec<(Arc, Arc)>, Memory>
        ensures { IfOk result (λ turns. turns.items ≡ self.now.forbidden) }
    {
        let mut turns = Vec::new(alloc);
        for turn in &self.forbidden {
            turns.push((Arc(turn.0), Arc(turn.1)))?;
        }
        Ok(turns)
    }

    /// How many turns are forbidden.
    pub fn forbidden_count(&self) -> usize
        ensures { result ≡ length self.now.forbidden }
    {
        self.forbidden.len()
    }

    /// Forbids the turn from one arc to another.
    pub fn forbid(&mut self, x: Arc, y: Arc) -> Result<(), Memory>
        requires fresh { is_forbidden self.old.forbidden x y ≡ false }
        ensures ok { OnOk result (self.new ≡ record self.old { forbidden = with_pair (x, y) self.old.forbidden }) }
        ensures err { OnErr result (self.new ≡ self.old) }
    {
        self.forbidden.insert((x.0, y.0))?;
        Ok(())
    }

    /// The sets of segments that conflict, in the order of the file.
    pub fn conflicts(&self) -> &[List<Segment>]
        ensures { result.now ≡ self.now.conflicts }
    {
        self.conflicts.as_slice()
    }

    /// One more set of segments that conflict.
    pub fn add_conflict(&mut self, set: List<Segment>) -> Result<(), Memory>
        ensures ok { OnOk result (self.new ≡ record self.old { conflicts = self.old.conflicts ++ set ∷ [] }) }
        ensures err { OnErr result (self.new ≡ self.old) }
    {
        self.conflicts.push(set)?;
        Ok(())
    }
}

const MOST_ENDS: u32 = 32;

const MOST_SEGMENTS: usize = 10_000;

/// Where it stands whether a class has a time on a segment.
fn time_place(segment: Segment, class: Class) -> usize
    ensures { result ≡ time_place segment class }
{
    class.0 as usize * MOST_SEGMENTS + segment.0 as usize
}
