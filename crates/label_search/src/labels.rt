//! The labels of a search, and the queue of those cells that are not settled.
ghost use Rattle.std.specs.Prelude.{◌≡◌, ◌<◌, ◌≤◌, ◌+◌, ◌/◌, ◌^◌, false, length};
ghost use Rattle.label_search.specs.Queued.{HaveLabels};
ghost use Rattle.label_search.specs.Groups.{AreMarked, HaveNothing};

use crate::known::Known;
use label_queue::LabelQueue;

/// A time at which a walk can leave a cell, and the cell that it came by, which means nothing for a walk that begins there.
#[derive(Clone, Copy)]
pub struct Label {
    pub value: u32,
    pub via: usize,
}

/// The least label that each cell was offered, and the cells whose label may still be bettered, by its value. So that no
/// search looks at all cells, those that may have a label are marked.
#[derive(Drop)]
pub(crate) struct Labels {
    pub(crate) known: Vec<Known>,
    pub(crate) queue: LabelQueue,
    // The marks, a bit for each cell.
    pub(crate) groups: Vec<u64>,
    // Whether there may be labels.
    pub(crate) touched: bool,
    // For how many rows room is made at once, from what searches handed out of late.
    pub(crate) usual: usize,
    ghost counted: { length groups.items ≡ length known.items / 64 + 1 },
    ghost marked: { AreMarked known.items groups.items },
    ghost untouched: { touched ≡ false → HaveNothing known.items },
    ghost keyed: { length known.items ≤ length queue },
    ghost queued: { HaveLabels known.items queue },
    ghost few: { length known.items < 2 ^ 32 },
}
