//! The windows of the segments that were asked for, kept until the holds change.
ghost use Rattle.std.specs.Prelude.{◌≡◌, ◌<◌, ◌∷◌, [], ℕ, Bool, List, Option, All, IfOk, IsTrue, OnOk, length};
ghost use Rattle.taxi_base.specs.declared.rows.LabelRow.{LabelRow};
ghost use Rattle.taxi_base.specs.declared.numbers.Segment.{Segment};
ghost use Rattle.taxi_base.specs.Airport.{layout_of, arc_exists};
ghost use Rattle.taxi_base.specs.Windows.{Hold, holds_of, AreWindows};
ghost use Rattle.taxi_base.specs.Walks.{Conditions, free_among};
ghost use Rattle.table_rows.specs.declared.reach.Way.{Way};
ghost use Rattle.table_rows.specs.Served.{AreServed};
ghost use Rattle.check_rows.specs.Known.{AreKnown, is_known, DifferOn, DifferAt, HaveMore, AreLeft};
ghost use Rattle.check_rows.specs.Cuts.{IsApart, IsListCut, AreListsCut};
ghost use Rattle.check_rows.specs.Returns.{IsListBack, AreListsBack};

use airport_file::Airport;
use conflict_sets::Conflicts;
use held_spans::HoldsOf;
use segment_windows::{cut_windows, fill_windows, give_back};
use std::alloc::Global;
use std::cell::Cell;
use std::mem::replace;
use table_rows::{Served, note_firsts};
use taxi_base::{LabelRow, Memory, Segment, Span, Step, Time};

/// The windows of each segment for which they were made. Their memory is used again when they are made anew.
#[derive(Drop)]
pub struct KnownWindows {
    lists: Vec<SegmentWindows>,
    // The spans of which windows are being made.
    busy: Vec<Span>,
    // Where the rows of each arc begin in the table that is being checked.
    firsts: Vec<usize>,
    // In which stretches each label of an arc has a row, in the table that is being checked.
    served: Served,
}

/// The windows of one segment, where they were made.
#[derive(Drop)]
struct SegmentWindows {
    windows: Vec<Span>,
    is_made: bool,
    // Where one of them was found last, or any number.
    found: Cell<usize>,
}

impl KnownWindows {
    /// None yet of an airport's segments.
    pub fn new(alloc: Global, airport: &Airport) -> Result<KnownWindows, Memory>
        ensures { IfOk result (λ known. (free : Segment → ℕ → Bool) → AreKnown (length airport.now.segments) free known) }
    {
        let mut lists = Vec::new(alloc);
        let mut firsts = Vec::new(alloc);
        let mut served = Served::new(alloc);
        for _ in 0..airport.graph().segments() {
            let windows = Vec::new(alloc);
            lists.push(SegmentWindows {
                windows,
                is_made: false,
                found: Cell::new(0),
            })?;
            // An arc each way.
            firsts.push(0)?;
            firsts.push(0)?;
            served.add_arc()?;
            served.add_arc()?;
        }
        let busy = Vec::new(alloc);
        Ok(KnownWindows {
            lists,
            busy,
            firsts,
            served,
        })
    }

    /// Hands out where the rows of each arc begin in a table, until it is put back.
    pub(crate) fn take_firsts(&mut self, rows: &[LabelRow]) -> Vec<usize>
        ensures { (segments : ℕ) (free : Segment → ℕ → Bool) → AreKnown segments free self.old → AreKnown segments free self.new }
    {
        let none = Vec::new(*self.firsts.allocator());
        let mut firsts = replace(&mut self.firsts, none);
        note_firsts(&mut firsts, rows);
        firsts
    }

    /// Takes it back, to be used again.
    pub(crate) fn put_firsts(&mut self, firsts: Vec<usize>)
        ensures { (segments : ℕ) (free : Segment → ℕ → Bool) → AreKnown segments free self.old → AreKnown segments free self.new }
    {
        self.firsts = firsts;
    }

    /// Hands out the stretches in which the labels of an arc have rows, of which none is known yet, until they are put back.
    pub(crate) fn take_served(&mut self) -> Served
        ensures kept { (segments : ℕ) (free : Segment → ℕ → Bool) → AreKnown segments free self.old → AreKnown segments free self.new }
        ensures none { (way : Way) (c : Conditions) (bound : Option ℕ) (rows : List LabelRow) → AreServed way c bound rows result }
    {
        let none = Served::new(*self.firsts.allocator());
        let mut served = replace(&mut self.served, none);
        served.forget();
        served
    }

    /// Takes them back, to be used again.
    pub(crate) fn put_served(&mut self, served: Served)
        ensures { (segments : ℕ) (free : Segment → ℕ → Bool) → AreKnown segments free self.old → AreKnown segments free self.new }
    {
        self.served = served;
    }

    /// Makes a segment's windows, unless they are there.
    #[inline(always)]
    pub fn make<H: HoldsOf>(
        &mut self,
        airport: &Airport,
        holds: &H,
        segment: Segment,
    ) -> Result<(), Memory>
        requires on { segment.0 < length airport.now.segments }
        requires known { AreKnown (length airport.now.segments) (free_among airport.now (H.held holds.now)) self.old }
        ensures known { AreKnown (length airport.now.segments) (free_among airport.now (H.held holds.now)) self.new }
        ensures made { OnOk result (IsTrue (is_known self.new segment)) }
    {
        if self.lists[segment.0 as usize].is_made {
            return Ok(());
        }
        self.make_anew(airport, holds, segment)
    }

    /// Makes a segment's windows, which are not there.
    fn make_anew<H: HoldsOf>(
        &mut self,
        airport: &Airport,
        holds: &H,
        segment: Segment,
    ) -> Result<(), Memory>
        requires on { segment.0 < length airport.now.segments }
        requires known { AreKnown (length airport.now.segments) (free_among airport.now (H.held holds.now)) self.old }
        ensures known { AreKnown (length airport.now.segments) (free_among airport.now (H.held holds.now)) self.new }
        ensures made { OnOk result (IsTrue (is_known self.new segment)) }
    {
        let list = &mut self.lists[segment.0 as usize];
        list.is_made = false;
        let (conflicts, horizon) = (airport.conflicts(), airport.horizon());
        let (windows, busy) = (&mut list.windows, &mut self.busy);
        fill_windows(windows, busy, conflicts, horizon, holds, segment)?;
        list.is_made = true;
        Ok(())
    }

    /// A segment's windows.
    #[inline(always)]
    pub fn of(&self, segment: Segment) -> &[Span]
        requires { IsTrue (is_known self.now segment) }
        ensures { (segments : ℕ) (free : Segment → ℕ → Bool) → AreKnown segments free self.now → AreWindows (free segment) result.now }
    {
        &self.lists[segment.0 as usize].windows
    }

    /// Where one of a segment's windows was found last, or any number.
    #[inline(always)]
    pub(crate) fn found(&self, segment: Segment) -> &Cell<usize>
        requires { IsTrue (is_known self.now segment) }
    {
        &self.lists[segment.0 as usize].found
    }

    /// Cuts what some steps hold out of the windows that are known.
    pub fn cut(&mut self, airport: &Airport, clearance: Time, steps: &[Step])
        requires arcs { All (λ step. IsTrue (arc_exists (layout_of airport.now) step.arc)) steps.now }
        requires known { (holds : List Hold) × AreKnown (length airport.now.segments) (free_among airport.now holds) self.old }
        ensures { (holds others : List Hold) → HaveMore (holds_of airport.now.horizon clearance steps.now) holds others → AreKnown (length airport.now.segments) (free_among airport.now holds) self.old → AreKnown (length airport.now.segments) (free_among airport.now others) self.new }
    {
        for step in steps {
            let held = step.held(airport.horizon(), clearance);
            self.cut_segment(airport, step.arc.segment(), held);
        }
    }

    /// Cuts a span for which a segment is held out of the windows that are known.
    pub fn cut_segment(&mut self, airport: &Airport, segment: Segment, span: Span)
        requires on { segment.0 < length airport.now.segments }
        requires known { (holds : List Hold) × AreKnown (length airport.now.segments) (free_among airport.now holds) self.old }
        ensures { (holds others : List Hold) → HaveMore (record { segment = segment; span = span } ∷ []) holds others → AreKnown (length airport.now.segments) (free_among airport.now holds) self.old → AreKnown (length airport.now.segments) (free_among airport.now others) self.new }
    {
        let conflicting = airport.conflicts().of(segment);
        cut_lists(&mut self.lists, conflicting, span);
    }

    /// Gives the known windows what some steps held that the holds do not have. The steps are no longer among these.
    pub fn give_back<H: HoldsOf>(
        &mut self,
        airport: &Airport,
        holds: &H,
        clearance: Time,
        steps: &[Step],
    )
        requires arcs { All (λ step. IsTrue (arc_exists (layout_of airport.now) step.arc)) steps.now }
        requires known { (before : List Hold) × AreKnown (length airport.now.segments) (free_among airport.now before) self.old }
        ensures { (before : List Hold) → HaveMore (holds_of airport.now.horizon clearance steps.now) (H.held holds.now) before → AreKnown (length airport.now.segments) (free_among airport.now before) self.old → AreKnown (length airport.now.segments) (free_among airport.now (H.held holds.now)) self.new }
    {
        for step in steps {
            let held = step.held(airport.horizon(), clearance);
            let conflicts = airport.conflicts();
            let conflicting = conflicts.of(step.arc.segment());
            give_back_lists(&mut self.lists, conflicts, conflicting, holds, held);
        }
    }

    /// Forgets the windows of all segments in conflict with those of some steps. The others stay right where the holds change
    /// on the segments of the steps.
    pub fn forget(&mut self, airport: &Airport, steps: &[Step])
        requires { All (λ step. IsTrue (arc_exists (layout_of airport.now) step.arc)) steps.now }
        ensures { (holds others : List Hold) → DifferOn steps.now holds others → AreKnown (length airport.now.segments) (free_among airport.now holds) self.old → AreKnown (length airport.now.segments) (free_among airport.now others) self.new }
    {
        for step in steps {
            let segments = airport.conflicts().of(step.arc.segment());
            forget_lists(&mut self.lists, segments);
        }
    }

    /// Forgets the windows of a segment and of those in conflict with it. The others stay right where the holds change on this
    /// segment alone.
    pub fn forget_segment(&mut self, airport: &Airport, segment: Segment)
        requires { segment.0 < length airport.now.segments }
        ensures { (holds others : List Hold) → DifferAt segment holds others → AreKnown (length airport.now.segments) (free_among airport.now holds) self.old → AreKnown (length airport.now.segments) (free_among airport.now others) self.new }
    {
        let conflicting = airport.conflicts().of(segment);
        forget_lists(&mut self.lists, conflicting);
    }
}

/// Forgets the lists of some segments.
fn forget_lists(lists: &mut Vec<SegmentWindows>, segments: &[Segment])
    ensures { AreLeft segments.now lists.old.items lists.new.items }
{
    for segment in segments {
        let at = segment.0 as usize;
        if at < lists.len() {
            lists[at].is_made = false;
        }
    }
}

/// Cuts a span out of the lists of some segments.
fn cut_lists(lists: &mut Vec<SegmentWindows>, segments: &[Segment], span: Span)
    requires { All IsApart lists.old.items }
    ensures { AreListsCut segments.now span lists.old.items lists.new.items }
{
    for segment in segments {
        let at = segment.0 as usize;
        if at < lists.len() {
            lists[at].cut(span);
        }
    }
}

/// Gives what no hold in conflict has of a span back to the lists of some segments.
fn give_back_lists<H: HoldsOf>(
    lists: &mut Vec<SegmentWindows>,
    conflicts: &Conflicts,
    segments: &[Segment],
    holds: &H,
    span: Span,
)
    requires exist { All (λ s. s.0 < conflicts.now.segments) segments.now }
    requires apart { All IsApart lists.old.items }
    ensures { AreListsBack conflicts.now.sets (H.held holds.now) segments.now span lists.old.items lists.new.items }
{
    for segment in segments {
        let at = segment.0 as usize;
        if at < lists.len() {
            lists[at].give_back(span, conflicts, holds, *segment);
        }
    }
}

impl SegmentWindows {
    /// Gives what no hold in conflict has of a span back to the windows, if they were made. Where memory runs out they are forgotten.
    fn give_back<H: HoldsOf>(
        &mut self,
        span: Span,
        conflicts: &Conflicts,
        holds: &H,
        segment: Segment,
    )
        requires on { segment.0 < conflicts.now.segments }
        requires apart { IsApart self.old }
        ensures { IsListBack conflicts.now.sets (H.held holds.now) segment span self.old self.new }
    {
        if !self.is_made {
            return;
        }
        if give_back(&mut self.windows, span, conflicts, holds, segment).is_err() {
            self.is_made = false;
        }
    }

    /// Cuts a span out of the windows, if they were made. Where memory runs out they are forgotten.
    fn cut(&mut self, span: Span)
        requires { IsApart self.old }
        ensures { IsListCut span self.old self.new }
    {
        if !self.is_made {
            return;
        }
        if cut_windows(&mut self.windows, span).is_err() {
            self.is_made = false;
        }
    }
}
