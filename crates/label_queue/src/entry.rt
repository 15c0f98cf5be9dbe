//! What lies in the heap.
ghost use Rattle.std.specs.Prelude.{◌≡◌};
ghost use Rattle.label_queue.specs.Heap.{is_before};

use std::marker::Model;

/// A label and its key as one number, the key above the label, so that both are read, written and compared at once.
#[derive(Clone, Copy)]
pub(crate) struct Entry {
    rank: u64,
}

impl Model for Entry {
    ghost use Rattle.label_queue.specs.Entry as specs;
    ghost use Rattle.label_queue.specs.Entry.{entry_of, rank_of, rank_of-entry_of};

    ghost Value = { specs.Entry };

    ghost view = { λ e. entry_of e.rank };

    ghost inverse = { λ entry. record { rank = rank_of entry } };

    ghost inverse_ok = { λ e h i. record { rank = rank_of-entry_of e.rank i } };
}

impl Entry {
    pub(crate) fn new(label: u32, key: u32) -> Entry
        ensures { result ≡ record { key = key; label = label } }
    {
        Entry {
            rank: key as u64 * 4294967296 + label as u64,
        }
    }

    pub(crate) fn label(&self) -> u32
        ensures { result ≡ self.now.label }
    {
        (self.rank % 4294967296) as u32
    }

    pub(crate) fn key(&self) -> u32
        ensures { result ≡ self.now.key }
    {
        (self.rank / 4294967296) as u32
    }

    /// By the lesser key, and at a tie by the lesser label.
    pub(crate) fn is_before(&self, other: &Entry) -> bool
        ensures { result ≡ is_before self.now other.now }
    {
        self.rank < other.rank
    }
}
