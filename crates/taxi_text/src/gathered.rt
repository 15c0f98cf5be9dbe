//! What is read one after the other up to the end of a line.
ghost use Rattle.std.specs.Prelude.{◌≡◌, ℕ, ◌+◌, ◌<◌, ◌≤◌, ◌++◌, ◌∷◌, [], List as Items};
ghost use Rattle.taxi_text.specs.Commands.{up_to};
ghost use Rattle.taxi_text.specs.Reading.{IsReading, StandsFor};

use crate::command::CommandRefused;
use std::alloc::Global;
use taxi_base::List;

/// What was read so far. Where memory ran out for one, the rest are only counted, since the line may yet be a bad one.
#[derive(Drop)]
pub(crate) struct Gathered<T: Copy> {
    items: List<T>,
    pub(crate) count: usize,
    pub(crate) lost: bool,
}

impl<T: Copy> Gathered<T> {
    pub(crate) fn new(alloc: Global) -> Gathered<T>
        ensures { StandsFor [] result }
    {
        Gathered {
            items: List::new(alloc),
            count: 0,
            lost: false,
        }
    }

    pub(crate) fn add(&mut self, item: T)
        requires { self.old.count < 256 }
        ensures counted { self.new.count ≡ self.old.count + 1 }
        ensures added { (items : Items T) → StandsFor items self.old → StandsFor (items ++ item ∷ []) self.new }
    {
        self.count += 1;
        if !self.lost && self.items.push(item).is_err() {
            self.lost = true;
        }
    }

    /// What was read, of which there is one at least.
    pub(crate) fn finish(self) -> Result<List<T>, CommandRefused>
        ensures { (items : Items T) (most : ℕ) → StandsFor items self → self.count ≤ most → IsReading (up_to most items) result }
    {
        if self.count == 0 {
            Err(CommandRefused::BadLine)
        } else if self.lost {
            Err(CommandRefused::Memory)
        } else {
            Ok(self.items)
        }
    }
}
