//! The numbers of which traffic is made.
ghost use Rattle.std.specs.Prelude.{◌<◌, ◌≤◌, ◌^◌};

/// The numbers of which traffic is made, each in its range: from which number all is drawn, how many nodes a side of the
/// airport has, and how many flights there are.
#[derive(Drop)]
pub struct Traffic {
    pub number: u32,
    pub side: u32,
    pub flights: u32,
    ghost short: { number < 10 ^ 7 },
    ghost wide: { 2 ≤ side },
    ghost narrow: { side ≤ 40 },
    ghost few: { flights ≤ 2000 },
}
