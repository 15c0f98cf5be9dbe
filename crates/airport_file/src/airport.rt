//! An airport, with its graph, the times of its classes and its conflicts.
ghost use Rattle.std.specs.Prelude.{◌≡◌, ◌<◌, ◌≤◌, Some, length, map, slice_get, option_map};
ghost use Rattle.taxi_base.specs.Airport.{IsWellFormed, layout_of, times_of, clearance_of, node_name, class_name, segment_name, node_named, class_named, segment_named, arc_named, is_runway, is_stand, is_of_kind, is_node_of};

use aircraft_class::Classes;
use airport_rules::Plan;
use conflict_sets::Conflicts;
use segment_graph::Graph;
use std::marker::Model;
use taxi_base::{Arc, Class, Kind, Name, Node, Segment, Time};

/// An airport that keeps the rules and limits of the file format, seen by contracts as its plain record.
#[derive(Drop)]
pub struct Airport {
    pub(crate) horizon: Time,
    pub(crate) plan: Plan,
    pub(crate) graph: Graph,
    pub(crate) classes: Classes,
    pub(crate) conflicts: Conflicts,
}

impl Model for Airport {
    ghost use Rattle.taxi_base.specs.Airport.{Airport as Plain};

    ghost Value = { Plain };

    ghost use Rattle.airport_rules.specs.Plan.{airport_of_plan};
    ghost use Rattle.airport_file.specs.Built.{IsBuilt};

    ghost view = { λ a. airport_of_plan a.horizon a.plan };

    ghost invariant = { λ a. IsBuilt a.horizon a.plan a.graph a.classes a.conflicts };
}

impl Airport {
    /// The second at which the day ends, from 1 to 604,800. No segment is free from then on, and a step may still leave at it.
    pub fn horizon(&self) -> Time
        ensures horizon { result ≡ self.now.horizon }
        ensures rules { IsWellFormed self.now }
    {
        self.horizon
    }

    /// The nodes with the segments between them.
    pub fn graph(&self) -> &Graph
        ensures { result.now ≡ layout_of self.now }
    {
        &self.graph
    }

    /// The least time of each class on each segment, and the clearance of each.
    pub fn classes(&self) -> &Classes
        ensures { result.now ≡ record { segments = length self.now.segments; table = times_of self.now; clearances = self.now.clearances } }
    {
        &self.classes
    }

    /// For how long a class keeps a segment shut after leaving it, in seconds; 0 where the file gives no clearance.
    pub fn clearance(&self, class: Class) -> Time
        ensures clearance { result ≡ clearance_of self.now class }
        ensures range { result ≤ 600 }
    {
        self.classes.clearance(class)
    }

    /// Which segments conflict.
    pub fn conflicts(&self) -> &Conflicts
        ensures { result.now ≡ record { segments = length self.now.segments; sets = self.now.conflicts } }
    {
        &self.conflicts
    }

    /// What a node is.
    pub fn kind(&self, node: Node) -> Kind
        requires { node.0 < length self.now.nodes }
        ensures { option_map (λ n. n.kind) (slice_get self.now.nodes node.0) ≡ Some result }
    {
        self.plan.kinds()[node.0 as usize]
    }

    /// Whether a node is a runway node.
    pub fn is_runway(&self, node: Node) -> bool
        requires { node.0 < length self.now.nodes }
        ensures { result ≡ is_of_kind is_runway self.now node }
    {
        matches!(self.kind(node), Kind::Runway)
    }

    /// Whether a node is a stand.
    pub fn is_stand(&self, node: Node) -> bool
        requires { node.0 < length self.now.nodes }
        ensures { result ≡ is_of_kind is_stand self.now node }
    {
        matches!(self.kind(node), Kind::Stand)
    }

    /// Whether a runway node has this name.
    pub fn has_runway(&self, name: &Name) -> bool
        ensures { result ≡ is_node_of is_runway self.now name.now }
    {
        match self.node_named(name) {
            Some(node) => self.is_runway(node),
            None => false,
        }
    }

    /// Whether a stand has this name.
    pub fn has_stand(&self, name: &Name) -> bool
        ensures { result ≡ is_node_of is_stand self.now name.now }
    {
        match self.node_named(name) {
            Some(node) => self.is_stand(node),
            None => false,
        }
    }

    /// The name of a node.
    pub fn node_name(&self, node: Node) -> Name
        requires { node.0 < length self.now.nodes }
        ensures { node_name self.now node ≡ Some result }
    {
        self.plan.nodes().name(node.0 as usize)
    }

    /// The name of a class.
    pub fn class_name(&self, class: Class) -> Name
        requires { class.0 < length self.now.classes }
        ensures { class_name self.now class ≡ Some result }
    {
        self.plan.classes().name(class.0 as usize)
    }

    /// The name of a segment.
    pub fn segment_name(&self, segment: Segment) -> Name
        requires { segment.0 < length self.now.segments }
        ensures { segment_name self.now segment ≡ Some result }
    {
        self.plan.segments().name(segment.0 as usize)
    }

    /// The node of this name; none where no node has it.
    pub fn node_named(&self, name: &Name) -> Option<Node>
        ensures { result ≡ node_named self.now name.now }
    {
        self.plan.nodes().find(name).map(Node)
    }

    /// The class of this name; none where no class has it.
    pub fn class_named(&self, name: &Name) -> Option<Class>
        ensures { result ≡ class_named self.now name.now }
    {
        self.plan.classes().find(name).map(Class)
    }

    /// The segment of this name; none where no segment has it.
    pub fn segment_named(&self, name: &Name) -> Option<Segment>
        ensures { result ≡ segment_named self.now name.now }
    {
        self.plan.segments().find(name).map(Segment)
    }

    /// The arc of a segment's name and a direction; none where no segment has the name, or it lacks that arc.
    pub fn arc_named(&self, name: &Name, forward: bool) -> Option<Arc>
        ensures { result ≡ arc_named self.now name.now forward }
    {
        let at = self.plan.segments().find(name)?;
        let arc = Arc::of(Segment(at), forward);
        if self.plan.has_arc(arc) {
            Some(arc)
        } else {
            None
        }
    }
}
