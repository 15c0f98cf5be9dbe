//! What stands beside the windows, and needs room for holds where they get nodes.
ghost use Rattle.std.specs.Prelude.{ℕ, ◌≡◌, ◌<◌, ◌≤◌, OnOk};
ghost use Rattle.taxi_base.specs.declared.numbers.Segment.{Segment as SegmentNumber};

use taxi_base::{Memory, Segment};

/// Holds by segment that are kept beside the windows. Where a list of windows gets nodes, they get room before.
pub trait RoomBeside {
    /// The number of segments.
    ghost segments: { Self → ℕ };

    /// For how many holds there is room on a segment.
    ghost room: { Self → SegmentNumber → ℕ };

    /// What stays where room is made.
    ghost keeps: { Self → Self → Type 0 };

    /// Makes room for so many holds on a segment. No room is lost, also where memory runs out.
    fn make_room(&mut self, segment: Segment, wanted: usize) -> Result<(), Memory>
        requires exists { segment.0 < segments self.old }
        ensures made { OnOk result (wanted ≤ room self.new segment) }
        ensures as_many { segments self.new ≡ segments self.old }
        ensures gained { (s : SegmentNumber) → room self.old s ≤ room self.new s }
        ensures kept { keeps self.old self.new };

    /// It stays where no room is made.
    ghost keeps_itself: { (x : Self) → keeps x x };

    /// It stays over two calls.
    ghost keeps_further: { (x y z : Self) → keeps x y → keeps y z → keeps x z };
}
